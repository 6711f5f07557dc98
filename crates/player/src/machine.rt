// The lines after the first, taken byte by byte from what was read: held to their line feeds, played, and printed into a buffer.
// Nothing is read or written here.
ghost use Rattle.std.specs.Prelude.{◌≡◌, ◌≤◌, ◌<◌, None};
ghost use Rattle.lists.specs.Kit.{false, min, length, take};
ghost use Rattle.mesh.specs.Limits.{max_radios};
ghost use Rattle.text.specs.Print.{buffer_at, Puts, max_place};
ghost use Rattle.player.specs.Board.{tables_of, answer_of};
ghost use Rattle.player.specs.Lines.{Prints};
ghost use Rattle.player.specs.Machine.{spot, StopPut, Marked, Takes, closing};
ghost use Rattle.player.specs.Reading.{Writes, Ready};

use super::board::Board;
use super::input::Unread;
use super::play;
use script::printing;

// How many bytes may wait in the printing buffer before it is written.
pub const FULL: usize = 4096;

// What is wrong with a run: a read that failed, answers that cannot be kept until its end, or a line of another form.
#[derive(Clone, Copy)]
pub enum Fault {
    Unread(Unread),
    Lost,
    Bad,
}

// Where the run stands: the number of the line being read, how many of its bytes are held, how many bytes of the printing buffer
// wait to be written, whether the run goes on, and the first thing that is wrong with it.
#[derive(Clone, Copy)]
pub struct Progress {
    pub number: u64,
    pub held: usize,
    pub at: usize,
    pub live: bool,
    pub fault: Option<Fault>,
}

// The run ends at a line of another form.
fn stopped(s: Progress, out: &mut [u8]) -> Progress
    ensures { StopPut s out.old result out.new }
{
    let at = printing::put_bad_line(out, s.at, s.number);
    Progress {
        number: s.number,
        held: 0,
        at,
        live: false,
        fault: s.fault.or(Some(Fault::Bad)),
    }
}

// One byte more of the input. A line feed plays the line; a line longer than its room is of another form; after the end of the run
// nothing happens.
pub(crate) fn take_byte(
    s: Progress,
    byte: u8,
    line: &mut [u8],
    board: &mut Board,
    out: &mut [u8],
) -> Progress
    requires { s.number < max_place }
    ensures radios { board.new.radios ≡ board.old.radios }
    ensures marked { Marked s → Marked result }
    ensures taken { Prints (λ text. Takes (length line.old) board.old.radios byte
        (spot (tables_of board.old) (answer_of board.old) line.old s) text
        (spot (tables_of board.new) (answer_of board.new) line.new result))
        (buffer_at out.old s.at) (buffer_at out.new result.at) }
{
    if !s.live {
        return s;
    }
    if line.len() <= s.held {
        return stopped(s, out);
    }
    line[s.held] = byte;
    let held = s.held + 1;
    if byte != b'\n' {
        return Progress {
            number: s.number,
            held,
            at: s.at,
            live: true,
            fault: s.fault,
        };
    }
    let Some(at) = play::play_line(&line[..held], board, out, s.at) else {
        return stopped(s, out);
    };
    Progress {
        number: s.number + 1,
        held: 0,
        at,
        live: true,
        fault: s.fault,
    }
}

// The end of the input: the closing lines, or `bad L` where the last line has no line feed. The place after it.
fn finish(s: Progress, line: &[u8], numbers: &[u8], order: &[u16], out: &mut [u8]) -> usize
    ensures { Puts (buffer_at out.old s.at)
        (closing (take s.held line.now) numbers.now order.now s.number)
        (buffer_at out.new result) }
{
    let held = tables::fill::least(s.held, line.len());
    if held != 0 {
        return printing::put_bad_line(out, s.at, s.number);
    }
    let place = printing::put_numbers_line(out, s.at, numbers);
    printing::put_order_line(out, place, order)
}

// What is wrong with a run at the end of the input: a last line without a line feed.
fn end_fault(s: Progress, line: &[u8]) -> Option<Fault>
    ensures { result ≡ None → min s.held (length line.now) ≡ 0 }
{
    if tables::fill::least(s.held, line.len()) == 0 {
        return s.fault;
    }
    s.fault.or(Some(Fault::Bad))
}

// The end of the input, and of the run.
pub(crate) fn end(
    s: Progress,
    line: &[u8],
    numbers: &[u8],
    order: &[u16],
    out: &mut [u8],
) -> Progress
    requires ready { Ready 0 s out.old }
    requires few { (length numbers.now ≤ max_radios) × (length order.now ≤ max_radios) }
    ensures over { result.live ≡ false }
    ensures whole { result.fault ≡ None → min s.held (length line.now) ≡ 0 }
    ensures closed { Writes (buffer_at out.old s.at)
        (closing (take s.held line.now) numbers.now order.now s.number)
        (buffer_at out.new result.at) }
{
    let at = finish(s, line, numbers, order, out);
    Progress {
        number: s.number,
        held: 0,
        at,
        live: false,
        fault: end_fault(s, line),
    }
}
