// The replay program as a library: reads its input to its end, plays its lines on a site of its own, and then prints what each
// line says. A line of another form ends the run with `bad L`. What cannot be read, kept or written is one line on the error output. The
// status is 0 where all was read, played and written, and else 1.
#![tactic(auto)]

ghost use Rattle.player.specs.Reading.{RunStatus};

pub mod board;
pub mod faults;
mod first;
pub mod input;
pub mod keeping;
mod machine;
mod play;
mod reading;
pub mod words;

pub use first::radios_of;
use input::Ends;
use std::env::Env;
use std::fs::{File, Files};
use std::io::{Read, Write};
use std::random::RandomSource;

// Plays what the input holds, to its end: the status. After the first line each read asks for at most `most` bytes; long answers wait in
// the keep.
pub fn run_kept<I: Read, O: Write, E: Write>(
    ends: &mut Ends<I, O, E>,
    keep: Option<&File>,
    most: usize,
) -> u32
    ensures { RunStatus result }
{
    let first = match first::read_first(&mut ends.input) {
        Ok(first) => first,
        Err(why) => return reading::unread(ends, why),
    };
    match first.radios {
        Some(n) => reading::read_all(ends, keep, most, n),
        None => reading::print_bad(ends),
    }
}

// The same with a keep of its own.
pub fn run<R: Files<File = File> + RandomSource, I: Read, O: Write, E: Write>(
    rt: &R,
    ends: &mut Ends<I, O, E>,
    most: usize,
) -> u32
    ensures { RunStatus result }
{
    let mut name = *b"/tmp/replay-XXXXXX";
    let keep = keeping::new(rt, &mut name);
    run_kept(ends, keep.as_ref(), most)
}

// Runs the program with the words that it is started with on these ends, and tells its status.
pub fn start_on<R: Env + Files<File = File> + RandomSource, I: Read, O: Write, E: Write>(
    rt: &R,
    ends: &mut Ends<I, O, E>,
) {
    let started = words::started(rt);
    let mut word = [0u8; words::WORD_BYTES];
    let bytes = words::word_at(rt, started.at, &mut word);
    let count = words::count(rt).wrapping_sub(started.at);
    let status = words::run_words(rt, ends, count, &word[..bytes]);
    words::tell(rt, ends, started.told, status);
}

// The same on the program's own input, output and errors.
pub fn start(rt: &HostRuntime) {
    start_on(rt, &mut input::standard(rt));
}
