// The lines after the first: read by chunks, taken, and kept until the end of the input through a buffer. A contract that cites `Reading`
// says what is taken from the bytes that a read brought, and what of it was handed to a write; that reads and writes hand them on is
// executed.
ghost use Rattle.std.specs.Prelude.{◌≡◌, ◌≢◌, ◌≤◌, ◌<◌, None};
ghost use Rattle.lists.specs.Kit.{true, length};
ghost use Rattle.mesh.specs.Limits.{max_radios};
ghost use Rattle.text.specs.Print.{buffer_at};
ghost use Rattle.player.specs.Board.{tables_of, answer_of};
ghost use Rattle.player.specs.Machine.{spot, line_room, full, Marked};
ghost use Rattle.player.specs.Reading.{chunk_room, out_room, kept_fault, RoomMade, broken_off, Ready, SiteCleared};
ghost use Rattle.player.specs.Reading.{TakesChunk, FoundBy, TakesRead, ReadsOnce, ReadsAll, Concluded, LinesStatus};

use super::board::Board;
use super::input::{Ends, State, Unread};
use super::machine::{Fault, Progress};
use super::{faults, input, keeping, machine};
use script::printing;
use std::fs::File;
use std::io::{Read, Write};

// The program, as its error lines name it.
const PROGRAM: [u8; 6] = *b"replay";

// The longest line of the language: `down 65535 65535` and its line feed.
const LINE_BYTES: usize = 17;

// The printing buffer: once it is full, a line more or the closing lines still fit.
const OUT_BYTES: usize = 16384;

// Writes what waits in the printing buffer: whether all of it was taken.
fn flush<W: Write>(to: &mut W, out: &[u8], at: usize) -> bool {
    let count = input::within(at, out);
    to.write_all(&out[..count]).is_ok()
}

// The same into the keep, where there is one.
fn flush_kept(keep: Option<&File>, out: &[u8], at: usize) -> bool {
    let Some(file) = keep else {
        return false;
    };
    let mut to = file;
    flush(&mut to, out, at)
}

// What is wrong after a full buffer was kept, or was not.
fn kept_fault(kept: bool, fault: Option<Fault>) -> Option<Fault>
    ensures { result ≡ kept_fault kept fault }
{
    if kept {
        fault
    } else {
        fault.or(Some(Fault::Lost))
    }
}

// Puts what waits into the keep, where the buffer is full.
fn make_room(keep: Option<&File>, s: Progress, out: &[u8]) -> Progress
    ensures { RoomMade s result }
{
    if s.at < machine::FULL {
        return s;
    }
    let kept = flush_kept(keep, out, s.at);
    Progress {
        number: s.number,
        held: s.held,
        at: 0,
        live: s.live,
        fault: kept_fault(kept, s.fault),
    }
}

// All bytes of a chunk.
fn take_chunk(
    keep: Option<&File>,
    s: Progress,
    chunk: &[u8],
    line: &mut [u8],
    board: &mut Board,
    out: &mut [u8],
) -> Progress
    requires { Ready (length chunk.now) s out.old }
    ensures radios { board.new.radios ≡ board.old.radios }
    ensures room { result.at < full }
    ensures marked { Marked s → Marked result }
    ensures taken { TakesChunk (length line.old) board.old.radios chunk.now
        (spot (tables_of board.old) (answer_of board.old) line.old s)
        (buffer_at out.old s.at)
        (spot (tables_of board.new) (answer_of board.new) line.new result)
        (buffer_at out.new result.at) }
{
    let mut s = s;
    for byte in chunk {
        let taken = machine::take_byte(s, *byte, line, board, out);
        s = make_room(keep, taken, out);
    }
    s
}

// A read failed: nothing is taken, and the run breaks off.
fn broken(s: Progress, why: Unread) -> Progress
    ensures value { result ≡ broken_off result.fault s }
    ensures fault { result.fault ≢ None }
{
    Progress {
        number: s.number,
        held: s.held,
        at: s.at,
        live: s.live,
        fault: s.fault.or(Some(Fault::Unread(why))),
    }
}

// What a read brought, by what it found.
fn take_read(
    keep: Option<&File>,
    s: Progress,
    state: State,
    chunk: &[u8],
    line: &mut [u8],
    board: &mut Board,
    out: &mut [u8],
) -> Progress
    requires live { s.live ≡ true }
    requires ready { Ready (length chunk.now) s out.old }
    ensures radios { board.new.radios ≡ board.old.radios }
    ensures room { result.live ≡ true → result.at < full }
    ensures found { FoundBy state result }
    ensures taken { TakesRead (length line.old) board.old.radios chunk.now state
        (spot (tables_of board.old) (answer_of board.old) line.old s)
        (buffer_at out.old s.at)
        (spot (tables_of board.new) (answer_of board.new) line.new result)
        (buffer_at out.new result.at) }
{
    match state {
        State::End => {
            let many = board.radios as usize;
            machine::end(s, line, &board.numbers[..many], &board.order[..many], out)
        }
        State::Failed(why) => broken(s, why),
        State::GoesOn => take_chunk(keep, s, chunk, line, board, out),
    }
}

// One read, and what it brings.
fn turn<I: Read>(
    input: &mut I,
    keep: Option<&File>,
    most: usize,
    s: Progress,
    line: &mut [u8],
    board: &mut Board,
    out: &mut [u8],
) -> Progress
    requires live { s.live ≡ true }
    requires ready { Ready chunk_room s out.old }
    ensures radios { board.new.radios ≡ board.old.radios }
    ensures room { result.live ≡ true → result.at < full }
    ensures read { ReadsOnce (length line.old) board.old.radios result
        (spot (tables_of board.old) (answer_of board.old) line.old s)
        (buffer_at out.old s.at)
        (spot (tables_of board.new) (answer_of board.new) line.new result)
        (buffer_at out.new result.at) }
{
    let mut chunk = [0u8; input::CHUNK_BYTES];
    let got = input::read(input, most, &mut chunk);
    take_read(keep, s, got.state, &chunk[..got.count], line, board, out)
}

// Reads to the end of the input. A line has its room, and a full printing buffer has room for the longest text. The loop counts its
// reads, up to a number that no run uses up; a run that still goes on then is not read to its end.
fn read_turns<I: Read>(
    input: &mut I,
    keep: Option<&File>,
    most: usize,
    line: &mut [u8],
    board: &mut Board,
    out: &mut [u8],
) -> Progress
    requires line { length line.old ≡ line_room }
    requires out { length out.old ≡ out_room }
    requires start { SiteCleared board.old.radios (tables_of board.old) (answer_of board.old) }
    ensures { ReadsAll board.old.radios (buffer_at out.old 0) result out.new }
{
    let mut s = Progress {
        number: 2,
        held: 0,
        at: 0,
        live: true,
        fault: None,
    };
    for done in 0..input::most() {
        if !s.live {
            return s;
        }
        if s.fault.is_some() {
            return s;
        }
        s = turn(input, keep, most, s, line, board, out);
    }
    s
}

// Writes what was kept, and what waits behind it: the status.
fn print<I, O: Write, E: Write>(
    ends: &mut Ends<I, O, E>,
    keep: Option<&File>,
    out: &[u8],
    s: Progress,
) -> u32
    ensures few { result ≤ 1 }
    ensures right { result ≡ 0 → s.fault ≡ None }
{
    if !keeping::copy(keep, &mut ends.output) {
        return wrong(ends, b"the output cannot be written");
    }
    if !flush(&mut ends.output, out, s.at) {
        return wrong(ends, b"the output cannot be written");
    }
    if s.fault.is_some() { 1 } else { 0 }
}

// Says what goes wrong: the status.
fn wrong<I, O, E: Write>(ends: &mut Ends<I, O, E>, words: &[u8]) -> u32
    ensures { result ≡ 1 }
{
    faults::say(&mut ends.errors, &PROGRAM, words);
    1
}

// Says that the input was not read to its end: the status.
pub(crate) fn unread<I, O, E: Write>(ends: &mut Ends<I, O, E>, why: Unread) -> u32
    ensures { result ≡ 1 }
{
    faults::say_unread(&mut ends.errors, &PROGRAM, why);
    1
}

// The end of a run: nothing is printed where a read failed, or where an answer was not kept.
fn conclude<I, O: Write, E: Write>(
    ends: &mut Ends<I, O, E>,
    keep: Option<&File>,
    out: &[u8],
    s: Progress,
) -> u32
    ensures { Concluded s result }
{
    if let Some(Fault::Lost) = s.fault {
        return wrong(
            ends,
            b"the answers cannot be kept until the end of the input",
        );
    }
    if !s.live {
        return print(ends, keep, out, s);
    }
    match s.fault {
        Some(Fault::Unread(why)) => unread(ends, why),
        _ => unread(ends, Unread::Other),
    }
}

// Plays all lines from the second on, on a cleared site, and prints: the status.
pub(crate) fn read_all<I: Read, O: Write, E: Write>(
    ends: &mut Ends<I, O, E>,
    keep: Option<&File>,
    most: usize,
    n: u32,
) -> u32
    requires { (0 < n) × (n ≤ max_radios) }
    ensures { LinesStatus n result }
{
    let mut board = Board::cleared(n);
    let mut line = [0u8; LINE_BYTES];
    let mut out = [0u8; OUT_BYTES];
    let s = read_turns(&mut ends.input, keep, most, &mut line, &mut board, &mut out);
    conclude(ends, keep, &out, s)
}

// Prints that line 1 is missing or of another form: the status.
pub(crate) fn print_bad<I, O: Write, E: Write>(ends: &mut Ends<I, O, E>) -> u32
    ensures { result ≡ 1 }
{
    let mut out = [0u8; 32];
    let at = printing::put_bad_line(&mut out, 0, 1);
    let count = input::within(at, &out);
    faults::print(ends, &PROGRAM, &out[..count]);
    1
}
