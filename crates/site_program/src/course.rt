// A script, played on a site's tables, line by line, as its bytes come. A line of another form or a refused one ends the run.
ghost use Rattle.std.specs.Prelude.{◌≡◌};
ghost use Rattle.lists.specs.Kit.{length};
ghost use Rattle.player.specs.Counts.{IsPrefixLen};
ghost use Rattle.script.specs.Lines.{line_of};
ghost use Rattle.mesh.specs.Lent.{lent};
ghost use Rattle.text.specs.Print.{next_place};
ghost use Rattle.calls.specs.Answers.{call_number};
ghost use Rattle.player.specs.First.{some_radios};
ghost use Rattle.site_program.specs.Errors.{fault_number};
ghost use Rattle.site_program.specs.Course.{first_end, named_radios, first_fault, form_of, lined_with, called, lined, spot, byte_taken, bytes_taken};
ghost use Rattle.site_program.specs.Course.{closed as Course·closed, ended as Course·ended, ReadsOnce, ReadsOn, ReadsRest, Plays};

use super::refusals::Fault;
use calls::Refusal;
use mesh::Site;
use player::input;
use player::input::{Ends, State, Unread};
use script::lines::Line;
use std::io::{Read, Write};

// The longest first line: `radios 512` and its line feed.
const FIRST_BYTES: usize = 11;

// The longest line of the language: `down 65535 65535` and its line feed.
const LINE_BYTES: usize = 17;

// The bytes that one read brings at most.
const CHUNK_BYTES: usize = 65536;

// Where the run stands: the number of the line, how many of its bytes are held, and what ended the run.
#[derive(Clone, Copy)]
pub struct Course {
    pub line: u64,
    pub held: usize,
    pub fault: Option<Fault>,
}

// The same, and what the last read found.
#[derive(Clone, Copy)]
pub struct Turned {
    pub course: Course,
    pub state: State,
}

// The place after the first line, where it has at most so many bytes; 0 where none of these is a line feed.
fn first_end(front: &[u8], most: usize) -> usize
    ensures counts { IsPrefixLen result front.now }
    ensures end { result ≡ first_end most front.now }
{
    for i in 0..most {
        if front.len() <= i {
            return 0;
        }
        if front[i] == b'\n' {
            return i + 1;
        }
    }
    0
}

// The radios that the first line names; none where it is of another form or names no size.
pub fn radios(front: &[u8]) -> Option<u32>
    ensures { result ≡ some_radios (named_radios front.now) }
{
    let end = first_end(front, FIRST_BYTES);
    player::radios_of(&front[..end])
}

// What is wrong with a line of another form: a carriage return before its line feed, or something else.
fn form_of(line: &[u8]) -> Fault
    ensures { result ≡ form_of line.now }
{
    if line.len() < 2 {
        return Fault::Form;
    }
    if line[line.len() - 2] == b'\r' {
        return Fault::Carriage;
    }
    Fault::Form
}

// What is wrong with a first line of another form: that, or no line feed in the whole input.
pub fn first_fault(front: &[u8]) -> Fault
    ensures { result ≡ first_fault front.now }
{
    let end = first_end(front, LINE_BYTES);
    if end != 0 {
        return form_of(&front[..end]);
    }
    if front.len() < LINE_BYTES {
        return Fault::NoFeed;
    }
    Fault::Form
}

// The number of the next line: counting stops at the largest number.
fn next_line(line: u64) -> u64
    ensures { result ≡ next_place line }
{
    if line < u64::MAX {
        return line + 1;
    }
    line
}

// What is wrong where a call is refused.
fn fault_of<T: Drop>(answer: Result<T, Refusal>) -> Option<Fault>
    ensures { fault_number result ≡ call_number answer }
{
    match answer {
        Ok(_) => None,
        Err(refusal) => Some(Fault::Refused(refusal)),
    }
}

// Takes a link up or down: what is wrong with that.
fn call(
    up: bool,
    n: u32,
    a: u32,
    b: u32,
    links: &mut [u8],
    numbers: &mut [u8],
    order: &mut [u16],
) -> Option<Fault>
    ensures { lined_with (fault_number result) (lent links.new numbers.new order.new)
        ≡ called up n a b (lent links.old numbers.old order.old) }
{
    let mut answer = [0u16; Site::RADIOS as usize];
    fault_of(links::link::link(up, n, a, b, links, numbers, order, &mut answer))
}

// Plays a line: what is wrong with it.
fn play_line(
    n: u32,
    line: &[u8],
    links: &mut [u8],
    numbers: &mut [u8],
    order: &mut [u16],
) -> Option<Fault>
    ensures { lined_with (fault_number result) (lent links.new numbers.new order.new)
        ≡ lined n line.now (line_of line.now) (lent links.old numbers.old order.old) }
{
    match script::lines::parse(line) {
        Line::Up(a, b) => call(true, n, a, b, links, numbers, order),
        Line::Down(a, b) => call(false, n, a, b, links, numbers, order),
        Line::Radios(_) => Some(form_of(line)),
        Line::Bad => Some(form_of(line)),
    }
}

// One byte more. A line feed plays the line; a line longer than its room is of another form; after the end of the run nothing happens.
fn take_byte(
    s: Course,
    byte: u8,
    n: u32,
    line: &mut [u8],
    links: &mut [u8],
    numbers: &mut [u8],
    order: &mut [u16],
) -> Course
    ensures { spot (lent links.new numbers.new order.new) line.new result
        ≡ byte_taken (length line.old) n byte (spot (lent links.old numbers.old order.old) line.old s) }
{
    if s.fault.is_some() {
        return s;
    }
    if line.len() <= s.held {
        return Course {
            line: s.line,
            held: 0,
            fault: Some(Fault::Form),
        };
    }
    line[s.held] = byte;
    let held = s.held + 1;
    if byte != b'\n' {
        return Course {
            line: s.line,
            held,
            fault: None,
        };
    }
    let fault = play_line(n, &line[..held], links, numbers, order);
    if fault.is_some() {
        return Course {
            line: s.line,
            held: 0,
            fault,
        };
    }
    Course {
        line: next_line(s.line),
        held: 0,
        fault: None,
    }
}

// All bytes of a chunk.
fn take_chunk(
    s: Course,
    chunk: &[u8],
    n: u32,
    line: &mut [u8],
    links: &mut [u8],
    numbers: &mut [u8],
    order: &mut [u16],
) -> Course
    ensures { spot (lent links.new numbers.new order.new) line.new result
        ≡ bytes_taken (length line.old) n chunk.now
        (spot (lent links.old numbers.old order.old) line.old s) }
{
    let mut s = s;
    for byte in chunk {
        s = take_byte(s, *byte, n, line, links, numbers, order);
    }
    s
}

// How far a run is, where that is shown.
fn show<E: Write>(errors: &mut E, shown: bool, line: u64) {
    if shown {
        let mut out = [0u8; 32];
        let word = text::put_text(&mut out, 0, b"\rline");
        let end = text::put_field(&mut out, word, line);
        let length = input::within(end, &out);
        let _ = errors.write_all(&out[..length]);
    }
}

// Wipes what `show` put.
fn wipe<E: Write>(errors: &mut E, shown: bool) {
    if shown {
        let _ = errors.write_all(b"\r                          \r");
    }
}

// One read, of at most `most` bytes, and what it brings.
fn turn<I: Read, O, E: Write>(
    ends: &mut Ends<I, O, E>,
    most: usize,
    shown: bool,
    s: Course,
    n: u32,
    line: &mut [u8],
    links: &mut [u8],
    numbers: &mut [u8],
    order: &mut [u16],
) -> Turned
    ensures { ReadsOnce (length line.old) n (spot (lent links.old numbers.old order.old) line.old s)
        result (spot (lent links.new numbers.new order.new) line.new result.course) }
{
    let mut chunk = [0u8; CHUNK_BYTES];
    let got = input::read(&mut ends.input, most, &mut chunk);
    show(&mut ends.errors, shown, s.line);
    Turned {
        course: take_chunk(s, &chunk[..got.count], n, line, links, numbers, order),
        state: got.state,
    }
}

// Reads to the end of the input or of the run. The loop counts its reads, up to a number that no run uses up; a run that still goes on
// then is not read to its end.
fn read_on<I: Read, O, E: Write>(
    ends: &mut Ends<I, O, E>,
    most: usize,
    shown: bool,
    s: Course,
    n: u32,
    line: &mut [u8],
    links: &mut [u8],
    numbers: &mut [u8],
    order: &mut [u16],
) -> Turned
    ensures { ReadsOn (length line.old) n (spot (lent links.old numbers.old order.old) line.old s)
        result (spot (lent links.new numbers.new order.new) line.new result.course) }
{
    let mut s = s;
    for _ in 0..input::most() {
        let done = turn(ends, most, shown, s, n, line, links, numbers, order);
        let State::GoesOn = done.state else {
            return done;
        };
        if done.course.fault.is_some() {
            return done;
        }
        s = done.course;
    }
    Turned {
        course: s,
        state: State::Failed(Unread::Other),
    }
}

// What is left of the input after its front: nothing where the front has its end, or the run is over.
fn read_rest<I: Read, O, E: Write>(
    ends: &mut Ends<I, O, E>,
    most: usize,
    shown: bool,
    front: Turned,
    n: u32,
    line: &mut [u8],
    links: &mut [u8],
    numbers: &mut [u8],
    order: &mut [u16],
) -> Turned
    ensures { ReadsRest (length line.old) n front
        (spot (lent links.old numbers.old order.old) line.old front.course)
        result (spot (lent links.new numbers.new order.new) line.new result.course) }
{
    let State::GoesOn = front.state else {
        return front;
    };
    if front.course.fault.is_some() {
        return front;
    }
    read_on(
        ends,
        most,
        shown,
        front.course,
        n,
        line,
        links,
        numbers,
        order,
    )
}

// The end of the input: a last line without a line feed is of another form.
fn closed(s: Turned) -> Turned
    ensures { result ≡ Course·closed s }
{
    if s.course.fault.is_some() {
        return s;
    }
    if s.course.held == 0 {
        return s;
    }
    Turned {
        course: Course {
            line: s.course.line,
            held: 0,
            fault: Some(Fault::NoFeed),
        },
        state: s.state,
    }
}

// What is left of the run where no read follows: at the end of the input a last line without a line feed is of another form.
fn ended(s: Turned) -> Turned
    ensures { result ≡ Course·ended s }
{
    match s.state {
        State::End => closed(s),
        State::GoesOn => s,
        State::Failed(_) => s,
    }
}

// Plays the script, of which the front is read, from its second line on. `state` is what the last read of the front found; where `shown` is
// set, each later read shows its line on the error output, and the end wipes it.
pub fn play<I: Read, O, E: Write>(
    ends: &mut Ends<I, O, E>,
    most: usize,
    shown: bool,
    n: u32,
    front: &[u8],
    state: State,
    links: &mut [u8],
    numbers: &mut [u8],
    order: &mut [u16],
) -> Turned
    ensures { Plays n front.now state (lent links.old numbers.old order.old)
        result (lent links.new numbers.new order.new) }
{
    let mut line = [0u8; LINE_BYTES];
    let start = Course {
        line: 2,
        held: 0,
        fault: fault_of(tables::clear::clear(n, links, numbers, order)),
    };
    let from = first_end(front, FIRST_BYTES);
    let course = take_chunk(start, &front[from..], n, &mut line, links, numbers, order);
    let first = Turned { course, state };
    let last = read_rest(
        ends, most, shown, first, n, &mut line, links, numbers, order,
    );
    wipe(&mut ends.errors, shown);
    ended(last)
}
