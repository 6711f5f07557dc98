// What goes wrong in a run, as one line on the error output: the program's name, and what in words.
ghost use Rattle.std.specs.Prelude.{◌++◌, ◌≤◌};
ghost use Rattle.text.specs.Text.{bytes_of};
ghost use Rattle.text.specs.Print.{buffer_at, Puts};
ghost use Rattle.player.specs.Reads.{unread_words};

use super::input;
use super::input::{Ends, Unread};
use std::io::Write;

// Longer than any line.
const LINE_BYTES: usize = 256;

// Puts why an input cannot be read.
pub fn put_unread(out: &mut [u8], at: usize, why: Unread) -> usize
    ensures { Puts (buffer_at out.old at) (unread_words why) (buffer_at out.new result) }
{
    match why {
        Unread::Folder => text::put_text(out, at, b"the input is a folder"),
        Unread::Blocks => {
            text::put_text(out, at, b"the input cannot be read now: a read would block")
        }
        Unread::Closed => text::put_text(out, at, b"the input is closed, or not open for reading"),
        Unread::Device => text::put_text(out, at, b"the input cannot be read: input/output error"),
        Unread::Other => text::put_text(out, at, b"the input cannot be read"),
    }
}

// Puts a line: the program, a colon, the words.
fn put_line(out: &mut [u8], program: &[u8], words: &[u8]) -> usize
    ensures { Puts (buffer_at out.old 0)
        (program.now ++ (bytes_of ": " ++ (words.now ++ bytes_of "\n"))) (buffer_at out.new result) }
{
    let name = text::put_text(out, 0, program);
    let colon = text::put_text(out, name, b": ");
    let said = text::put_text(out, colon, words);
    text::put_text(out, said, b"\n")
}

// Says what goes wrong.
pub fn say<E: Write>(errors: &mut E, program: &[u8], words: &[u8]) {
    let mut out = [0u8; LINE_BYTES];
    let end = put_line(&mut out, program, words);
    let count = input::within(end, &out);
    let _ = errors.write_all(&out[..count]);
}

// Prints a text: the status, which is 1 where the text cannot be written, and that is said.
pub fn print<I, O: Write, E: Write>(ends: &mut Ends<I, O, E>, program: &[u8], text: &[u8]) -> u32
    ensures { result ≤ 1 }
{
    if ends.output.write_all(text).is_ok() {
        return 0;
    }
    say(&mut ends.errors, program, b"the output cannot be written");
    1
}

// Says why the input cannot be read.
pub fn say_unread<E: Write>(errors: &mut E, program: &[u8], why: Unread) {
    let mut words = [0u8; LINE_BYTES];
    let end = put_unread(&mut words, 0, why);
    let count = input::within(end, &words);
    say(errors, program, &words[..count]);
}
