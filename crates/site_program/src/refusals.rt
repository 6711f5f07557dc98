// What goes wrong, as one line on the error output: where, the refusal number, and what it means in words. Each answers status 1.
ghost use Rattle.std.specs.Prelude.{◌≡◌, ◌++◌};
ghost use Rattle.text.specs.Print.{buffer_at, Puts};
ghost use Rattle.site_program.specs.Inputs.{wrong};
ghost use Rattle.site_program.specs.Errors.{line_words, script_text, image_text, usage_words, file_words};

use super::words::put_refused;
use calls::Refusal;
use player::input::Unread;
use player::{faults, input};
use std::io::Write;

// The status of a run that went wrong.
pub const WRONG: u32 = 1;

// What is wrong with a line of a script: it is of another form, the last one has no line feed, a carriage return stands before the line
// feed, or the call is refused.
#[derive(Clone, Copy)]
pub enum Fault {
    Form,
    NoFeed,
    Carriage,
    Refused(Refusal),
}

// Longer than any line.
const LINE_BYTES: usize = 256;

// A line in words.
pub fn say<E: Write>(errors: &mut E, words: &[u8]) -> u32
    ensures { result ≡ wrong }
{
    faults::say(errors, b"site", words);
    WRONG
}

// An input that cannot be read.
pub fn say_unread<E: Write>(errors: &mut E, why: Unread) -> u32
    ensures { result ≡ wrong }
{
    faults::say_unread(errors, b"site", why);
    WRONG
}

// The words that stand in front of a buffer, and have this length.
fn say_front<E: Write>(errors: &mut E, words: &[u8], length: usize) -> u32
    ensures { result ≡ wrong }
{
    let count = input::within(length, words);
    say(errors, &words[..count])
}

// A verb's call that is refused.
pub fn say_call<E: Write>(errors: &mut E, refusal: Refusal) -> u32
    ensures { result ≡ wrong }
{
    let mut words = [0u8; LINE_BYTES];
    let end = put_refused(&mut words, 0, u32::from(refusal));
    say_front(errors, &words, end)
}

// Puts what is wrong with a line of a script.
fn put_line(out: &mut [u8], at: usize, fault: Fault) -> usize
    ensures { Puts (buffer_at out.old at) (line_words fault) (buffer_at out.new result) }
{
    match fault {
        Fault::Form => text::put_text(out, at, b"no line of the language stands here"),
        Fault::NoFeed => text::put_text(out, at, b"the last line has no line feed"),
        Fault::Carriage => {
            text::put_text(out, at, b"a carriage return stands before the line feed")
        }
        Fault::Refused(refusal) => put_refused(out, at, u32::from(refusal)),
    }
}

// Puts which line of a script is refused or of another form, and why.
fn put_script(out: &mut [u8], line: u64, fault: Fault) -> usize
    ensures { Puts (buffer_at out.old 0) (script_text line fault) (buffer_at out.new result) }
{
    let word = text::put_text(out, 0, b"script, line");
    let digits = text::put_field(out, word, line);
    let colon = text::put_text(out, digits, b": ");
    put_line(out, colon, fault)
}

// A line of a script that is refused, or of another form.
pub fn say_line<E: Write>(errors: &mut E, line: u64, fault: Fault) -> u32
    ensures { result ≡ wrong }
{
    let mut words = [0u8; LINE_BYTES];
    let end = put_script(&mut words, line, fault);
    say_front(errors, &words, end)
}

// Puts where an image is refused, and why.
fn put_image(out: &mut [u8], refusal: Refusal, place: &[u8], x: u64) -> usize
    ensures { Puts (buffer_at out.old 0) (image_text refusal place.now x) (buffer_at out.new result) }
{
    let word = text::put_text(out, 0, b"no script; image, ");
    let named = text::put_text(out, word, place);
    let digits = text::put_field(out, named, x);
    let colon = text::put_text(out, digits, b": ");
    put_refused(out, colon, u32::from(refusal))
}

// An image that is refused, and where.
pub fn say_image<E: Write>(errors: &mut E, refusal: Refusal, place: &[u8], x: u64) -> u32
    ensures { result ≡ wrong }
{
    let mut words = [0u8; LINE_BYTES];
    let end = put_image(&mut words, refusal, place, x);
    say_front(errors, &words, end)
}

// Puts what a verb takes.
fn put_usage(out: &mut [u8], at: usize, takes: usize) -> usize
    ensures { Puts (buffer_at out.old at) (usage_words takes) (buffer_at out.new result) }
{
    if takes == 0 {
        return text::put_text(out, at, b" takes no number");
    }
    if takes == 1 {
        return text::put_text(out, at, b" takes a radio, 0 to 65535");
    }
    text::put_text(out, at, b" takes a radio and a level, 0 to 65535 each")
}

// A verb with numbers of another form, or with more or fewer of them.
pub fn say_usage<E: Write>(errors: &mut E, verb: &[u8], takes: usize) -> u32
    ensures { result ≡ wrong }
{
    let mut words = [0u8; LINE_BYTES];
    let word = text::put_text(&mut words, 0, verb);
    let end = put_usage(&mut words, word, takes);
    say_front(errors, &words, end)
}

// Puts that a verb takes no file name.
fn put_file(out: &mut [u8], verb: &[u8]) -> usize
    ensures { Puts (buffer_at out.old 0) (file_words verb.now) (buffer_at out.new result) }
{
    let word = text::put_text(out, 0, verb);
    let said = text::put_text(out, word, b" reads standard input: site ");
    let again = text::put_text(out, said, verb);
    text::put_text(out, again, b" <FILE")
}

// A verb with a word behind it that may be a file's name.
pub fn say_file<E: Write>(errors: &mut E, verb: &[u8]) -> u32
    ensures { result ≡ wrong }
{
    let mut words = [0u8; LINE_BYTES];
    let end = put_file(&mut words, verb);
    say_front(errors, &words, end)
}
