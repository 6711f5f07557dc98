// The replay program on each script of data/, in turn: the script's name, then what is printed. The canary is M1's script with
// another last call: each kind of printed line must differ from M1's. Of each run the errors and the status are printed too; of some,
// reads and writes fail. Then scripts of pseudo-random sites, written and played. Scripts and expected output are made by
// oracle/scripts.py and oracle/rebuilt.py.
#![tactic(auto)]

mod back;
mod keeps;
mod rebuilt;
mod refused;
mod site;
mod writing;

use player::input::Ends;
use std::fs::File;
use std::io;
use std::io::{Seek, SeekFrom, Write};
use test_parts::files;

// More than an error line has.
const ERRORS: usize = 512;

// Prints what a file of errors has.
fn print_errors(rt: &HostRuntime, file: &mut File) -> io::Result<()> {
    let mut bytes = [0u8; ERRORS];
    file.seek(SeekFrom::Start(0))?;
    let count = files::read_full(file, &mut bytes)?;
    rt.write_all(&bytes[..count])
}

// Prints the status.
fn print_status(rt: &HostRuntime, status: u32) -> io::Result<()> {
    println!(rt; "status {status}")
}

// Plays an input, of which a read asks for at most `most` bytes.
fn run<O: Write + Drop>(rt: &HostRuntime, input: File, output: O, most: usize) -> io::Result<()> {
    let mut ends = Ends {
        input,
        output,
        errors: files::temporary(rt)?,
    };
    let status = player::run(rt, &mut ends, most);
    print_errors(rt, &mut ends.errors)?;
    print_status(rt, status)
}

// The words of a run on no input.
fn words(rt: &HostRuntime, word: &str) -> io::Result<()> {
    let mut ends = Ends {
        input: files::unreadable(rt)?,
        output: rt.stdout(),
        errors: files::temporary(rt)?,
    };
    println!(rt; "replay {word}")?;
    let status = player::words::run_words(rt, &mut ends, 1, word.as_bytes());
    print_errors(rt, &mut ends.errors)?;
    print_status(rt, status)
}

// Plays one script, with its output to `output`.
fn play_to<O: Write + Drop>(
    rt: &HostRuntime,
    path: &str,
    output: O,
    most: usize,
) -> io::Result<()> {
    let file = files::open(rt, path)?;
    println!(rt; "{path}")?;
    run(rt, file, output, most)
}

// Plays one script, of which a read asks for at most `most` bytes.
fn play(rt: &HostRuntime, path: &str, most: usize) -> io::Result<()> {
    play_to(rt, path, rt.stdout(), most)
}

// Plays one script, whose output cannot be written: it is open for reading alone.
fn play_unwritten(rt: &HostRuntime, path: &str) -> io::Result<()> {
    play_to(rt, path, files::open(rt, path)?, usize::MAX)
}

// Plays one script by reads of all that the player has room for.
fn case(rt: &HostRuntime, path: &str) -> io::Result<()> {
    play(rt, path, usize::MAX)
}

// Document 01's cases, refusals, and sites of all sizes.
fn sites(rt: &HostRuntime) -> io::Result<()> {
    case(rt, "m1")?;
    case(rt, "m2")?;
    case(rt, "m4")?;
    case(rt, "m5")?;
    case(rt, "m9")?;
    case(rt, "m10")?;
    case(rt, "refusals")?;
    case(rt, "one-radio")?;
    case(rt, "no-calls-512")?;
    case(rt, "clique-41")?;
    case(rt, "ring-512")?;
    case(rt, "circulant-512")?;
    case(rt, "grown-512")?;
    case(rt, "grown-48")?;
    case(rt, "risen-96")
}

// First lines of another form.
fn first_lines(rt: &HostRuntime) -> io::Result<()> {
    case(rt, "empty")?;
    case(rt, "empty-line")?;
    case(rt, "no-first-line")?;
    case(rt, "unterminated-first-line")?;
    case(rt, "radios-0")?;
    case(rt, "radios-513")?;
    case(rt, "radios-65536")?;
    case(rt, "radios-leading-zero")?;
    case(rt, "radios-alone")?;
    case(rt, "radios-two-numbers")?;
    case(rt, "radios-very-long")?;
    case(rt, "radios-space-at-the-end")?;
    case(rt, "radios-space-at-the-front")?;
    case(rt, "radios-carriage-return")?;
    case(rt, "radios-byte-255")?;
    case(rt, "radios-255-first")?;
    case(rt, "radios-255-for-line-feed")
}

// Later lines of another form.
fn later_lines(rt: &HostRuntime) -> io::Result<()> {
    case(rt, "second-radios")?;
    case(rt, "leading-zero")?;
    case(rt, "value-65535")?;
    case(rt, "value-65536")?;
    case(rt, "two-spaces")?;
    case(rt, "space-at-the-end")?;
    case(rt, "space-at-the-front")?;
    case(rt, "tab")?;
    case(rt, "carriage-return")?;
    case(rt, "empty-line-later")?;
    case(rt, "capital")?;
    case(rt, "sign")?;
    case(rt, "one-number")?;
    case(rt, "three-numbers")?;
    case(rt, "unterminated")?;
    case(rt, "very-long")?;
    case(rt, "very-long-unterminated")?;
    case(rt, "above-127")?;
    case(rt, "zero-byte")?;
    case(rt, "byte-255")
}

// More than one read and one write.
fn long_runs(rt: &HostRuntime) -> io::Result<()> {
    case(rt, "bad-late")?;
    case(rt, "output-4095")?;
    case(rt, "output-4096")?;
    case(rt, "output-4097")?;
    case(rt, "input-4096")
}

// Each read brings one byte of the 4,096 that it has room for.
fn by_bytes(rt: &HostRuntime) -> io::Result<()> {
    play(rt, "m1", 1)?;
    play(rt, "refusals", 1)?;
    play(rt, "clique-41", 1)?;
    play(rt, "radios-very-long", 1)?;
    play(rt, "unterminated", 1)?;
    play(rt, "very-long", 1)?;
    play(rt, "byte-255", 1)?;
    play(rt, "bad-late", 1)?;
    play(rt, "output-4096", 1)
}

// What cannot be read or written: a folder, an input that is open for writing alone, a read after the first line that has no room; an
// output that is open for reading alone, for a run that waits in memory and for one that does not.
fn failures(rt: &HostRuntime) -> io::Result<()> {
    play(rt, ".", usize::MAX)?;
    println!(rt; "closed")?;
    run(rt, files::unreadable(rt)?, rt.stdout(), usize::MAX)?;
    play(rt, "m1", 0)?;
    play_unwritten(rt, "m1")?;
    play_unwritten(rt, "output-4096")?;
    play_unwritten(rt, "empty")
}

// Words in place of an input.
fn all_words(rt: &HostRuntime) -> io::Result<()> {
    words(rt, "--help")?;
    words(rt, "--version")?;
    words(rt, "m1")
}

fn main(rt: HostRuntime) -> io::Result<()> {
    sites(&rt)?;
    first_lines(&rt)?;
    later_lines(&rt)?;
    long_runs(&rt)?;
    case(&rt, "canary")?;
    by_bytes(&rt)?;
    failures(&rt)?;
    all_words(&rt)?;
    rebuilt::play(&rt)?;
    keeps::all(&rt)?;
    keeps::news(&rt)?;
    keeps::start(&rt, "m1")?;
    keeps::start(&rt, ".")
}
