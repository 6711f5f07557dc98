// The words of the replay program: it takes none, but for two that ask what it is. Also how a program is started, `site` too: with
// `--status D` before its words it writes its status to descriptor D.
ghost use Rattle.std.specs.Prelude.{◌≡◌, ◌≤◌};
ghost use Rattle.lists.specs.Kit.{length};
ghost use Rattle.player.specs.Counts.{IsPrefixLen};
ghost use Rattle.player.specs.Reading.{RunStatus};
ghost use Rattle.player.specs.Words.{longest_word, descriptor_of, start_of};

use super::input::Ends;
use super::{faults, input};
use std::env::{Env, FillError};
use std::fs::{File, Files, OpenOptions};
use std::io::{Read, Write};
use std::random::RandomSource;

// The longest word that is read; a longer one counts as empty, which no word of a program is.
pub const WORD_BYTES: usize = 32;

// The longest path of a descriptor.
const PATH_BYTES: usize = 32;

// Where the program's own words begin, and the descriptor that its status goes to, if any.
#[derive(Clone, Copy)]
pub struct Start {
    pub at: usize,
    pub told: Option<u32>,
}

// The descriptor of a word of one digit.
fn descriptor(word: &[u8]) -> Option<u32>
    ensures { result ≡ descriptor_of word.now }
{
    if word.len() != 1 {
        return None;
    }
    script::lines::digit_of(word[0])
}

// How a program is started whose first words are these.
fn start_of(first: &[u8], second: &[u8]) -> Start
    ensures { result ≡ start_of first.now second.now }
{
    if tables::fill::is_same(first, b"--status") {
        return Start {
            at: 3,
            told: descriptor(second),
        };
    }
    Start { at: 1, told: None }
}

// The word of the command at this place, in front of a buffer that has room for every word that means something: its length.
pub fn word_at<R: Env>(env: &R, at: usize, buffer: &mut [u8]) -> usize
    requires { longest_word ≤ length buffer.old }
    ensures { IsPrefixLen result buffer.new }
{
    match env.arg(at, buffer) {
        Ok(count) => input::within(count, buffer),
        Err(_) => 0,
    }
}

// How many words the command has, the program's name among them.
pub fn count<R: Env>(env: &R) -> usize {
    let mut word = [0u8; WORD_BYTES];
    for i in 0..usize::MAX {
        if let Err(FillError::NotPresent) = env.arg(i, &mut word) {
            return i;
        }
    }
    usize::MAX
}

// How the program is started.
pub fn started<R: Env>(env: &R) -> Start {
    let mut first = [0u8; WORD_BYTES];
    let mut second = [0u8; WORD_BYTES];
    let first_bytes = word_at(env, 1, &mut first);
    let second_bytes = word_at(env, 2, &mut second);
    start_of(&first[..first_bytes], &second[..second_bytes])
}

// Writes a text to the file of this name, which is there.
fn write_at<R: Files>(files: &R, path: &[u8], text: &[u8]) {
    let Ok(path) = std::str::from_utf8(path) else {
        return;
    };
    if let Ok(mut file) = OpenOptions::new().append(true).open(files, path) {
        let _ = file.write_all(text);
    }
}

// Writes a text to a descriptor: the output is 1, the errors are 2, and any other is opened by its number.
fn write_to<R: Files, I, O: Write, E: Write>(
    files: &R,
    ends: &mut Ends<I, O, E>,
    descriptor: u32,
    text: &[u8],
) {
    if descriptor == 1 {
        let _ = ends.output.write_all(text);
        return;
    }
    if descriptor == 2 {
        let _ = ends.errors.write_all(text);
        return;
    }
    let mut path = [0u8; PATH_BYTES];
    let folder = text::put_text(&mut path, 0, b"/dev/fd/");
    let end = text::put_decimal(&mut path, folder, descriptor as u64);
    let count = input::within(end, &path);
    write_at(files, &path[..count], text);
}

// Writes the status, one digit, where it is asked for.
pub fn tell<R: Files, I, O: Write, E: Write>(
    files: &R,
    ends: &mut Ends<I, O, E>,
    told: Option<u32>,
    status: u32,
) {
    let Some(descriptor) = told else {
        return;
    };
    let mut digits = [0u8; 20];
    let end = text::put_decimal(&mut digits, 0, status as u64);
    let count = input::within(end, &digits);
    write_to(files, ends, descriptor, &digits[..count]);
}

// Prints the page of `--help`: the status.
fn help<I, O: Write, E: Write>(ends: &mut Ends<I, O, E>) -> u32
    ensures { result ≤ 1 }
{
    faults::print(
        ends,
        b"replay",
        b"replay <FILE: plays a script of link calls on a cleared site

Line 1 is `radios N`, N from 1 to 512; every other line is `up A B` or `down A B`. Each call prints its refusal number, its step and the
radios whose number changed; at the end come all numbers by radio, and the order. A line of another form ends the run with `bad L`.

Nothing is printed before the input is read to its end. The status is 0 where all was read, played and written, and else 1; what cannot be
read or written is one line on the error output. bin/replay hands the status on: a proved program has none of its own.
",
    )
}

// Runs the program with `count` words, of which the first is given: the status.
pub fn run_words<R: Files<File = File> + RandomSource, I: Read, O: Write, E: Write>(
    rt: &R,
    ends: &mut Ends<I, O, E>,
    count: usize,
    word: &[u8],
) -> u32
    ensures few { result ≤ 1 }
    ensures run { count ≡ 0 → RunStatus result }
{
    if count == 0 {
        return crate::run(rt, ends, usize::MAX);
    }
    if tables::fill::is_same(word, b"--help") {
        return help(ends);
    }
    if tables::fill::is_same(word, b"--version") {
        return faults::print(ends, b"replay", &input::VERSION);
    }
    faults::say(
        &mut ends.errors,
        b"replay",
        b"no word is taken, and the script is standard input: replay <FILE",
    );
    1
}
