// The program `site` on inputs good and bad: for each case its words, what is printed, also on the error output, and the status.
// Files of data/ and the expected output are made by oracle/site.py; long inputs are made here, in a file without a name.
#![tactic(auto)]

use player::input;
use site_program::words;
use std::io;

mod cases;
mod long;
mod run;
mod started;

// 10 MB of noise behind a beginning.
fn noises(rt: &HostRuntime) -> io::Result<()> {
    long::noise(rt, b"x")?;
    long::noise(rt, b"\0")?;
    long::noise(rt, b"radios 5\n")
}

// 71,680 lines before an end, by long reads and by short ones.
fn scripts(rt: &HostRuntime) -> io::Result<()> {
    long::script(rt, b"", usize::MAX)?;
    long::script(rt, b"up 1 2\n", usize::MAX)?;
    long::script(rt, b"up 1 2\nup 2 1\n", usize::MAX)?;
    long::script(rt, b"up 1 2\n", 1000)?;
    long::script(rt, b"up 1 2\nup 2 1\n", 1000)?;
    long::shown(rt, 1000)
}

// Reads that bring a byte each; one that has no room, and so fails; a folder; an input that is open for writing alone.
fn reads(rt: &HostRuntime) -> io::Result<()> {
    run::by_reads(rt, "script-7", "numbers", 1)?;
    run::by_reads(rt, "image-7", "numbers", 1)?;
    run::by_reads(rt, "no-line-feed", "check", 1)?;
    run::by_reads(rt, "script-7", "numbers", 0)?;
    run::by_reads(rt, ".", "check", usize::MAX)?;
    run::closed(rt)
}

// Outputs that cannot be written.
fn writes(rt: &HostRuntime) -> io::Result<()> {
    run::unwritten(rt, "script-7", "check")?;
    run::unwritten(rt, "image-512", "image")?;
    run::unwritten(rt, "script-7", "help")?;
    run::unwritten(rt, "script-7", "--version")?;
    run::silent(rt, "radios-0", "check")?;
    run::silent(rt, "script-7", "unknown")
}

// A site of 10,240 links through every verb.
fn full(rt: &HostRuntime) -> io::Result<()> {
    run::long_text(rt, "full-512", "check")?;
    run::long_text(rt, "full-512", "numbers")?;
    run::long_text(rt, "full-512", "sheet")?;
    run::long_text(rt, "full-512", "script")?;
    run::long_text(rt, "full-512", "image")?;
    run::long_text(rt, "full-512", "backbone")?;
    run::long_text(rt, "full-512", "staircase")?;
    run::long_text(rt, "full-512", "tree")
}

// The words of every number, and of two that are none.
fn refusals(rt: &HostRuntime) -> io::Result<()> {
    for number in 0..22 {
        refusal(rt, number)?;
    }
    Ok(())
}

// The words of a number.
fn refusal(rt: &HostRuntime, number: u32) -> io::Result<()> {
    let mut out = [0u8; 128];
    let end = words::put_refused(&mut out, 0, number);
    let count = input::within(end, &out);
    rt.write_all(&out[..count])?;
    println!(rt)
}

// The program as it is started: on a script, on one that is refused, and on a long one, whose errors are a file or a terminal.
fn starts(rt: &HostRuntime) -> io::Result<()> {
    started::on(rt, "script-7")?;
    started::on(rt, "radios-0")?;
    started::on_lines(rt)?;
    started::on_terminal(rt)
}

fn main(rt: HostRuntime) -> io::Result<()> {
    cases::run_all(&rt, "cases")?;
    run::round_trip(&rt, "script-7", "image-7")?;
    run::round_trip(&rt, "image-512", "image-512")?;
    noises(&rt)?;
    scripts(&rt)?;
    reads(&rt)?;
    writes(&rt)?;
    full(&rt)?;
    run::told(&rt, 0)?;
    run::told(&rt, 1)?;
    refusals(&rt)?;
    starts(&rt)
}
