// The input: an image or a script, told apart by its first bytes.
ghost use Rattle.std.specs.Prelude.{IfSome, ◌≡◌, ◌≤◌};
ghost use Rattle.mesh.specs.Limits.{max_radios};
ghost use Rattle.mesh.specs.Lent.{lent};
ghost use Rattle.player.specs.Reads.{at_end};
ghost use Rattle.site_program.specs.Status.{Whole, SourceRead};

use super::course::Turned;
use super::kinds::{Kind, kind_of};
use super::{course, refusals};
use crate::images;
use player::input::{Ends, State, Unread};
use std::io::{Read, Write};

// How many radios the site has; none where a script has no first line.
pub(crate) fn radios(front: &[u8]) -> Option<u32>
    ensures { IfSome result (λ n. n ≤ max_radios) }
{
    match kind_of(front) {
        Kind::Script => course::radios(front),
        Kind::Image => Some(images::radios(front)),
    }
}

// The status of reading to the end of the input, by what the last read found.
fn read_out<I, O, E: Write>(ends: &mut Ends<I, O, E>, state: State) -> u32
    ensures few { result ≤ 1 }
    ensures to_end { result ≡ 0 → state ≡ at_end }
{
    match state {
        State::End => 0,
        State::Failed(why) => refusals::say_unread(&mut ends.errors, why),
        State::GoesOn => refusals::say_unread(&mut ends.errors, Unread::Other),
    }
}

// The status of a script that is played: it is refused at a line, or not read to its end, or neither.
fn played<I, O, E: Write>(ends: &mut Ends<I, O, E>, end: Turned) -> u32
    ensures { Whole end result }
{
    match end.course.fault {
        Some(fault) => refusals::say_line(&mut ends.errors, end.course.line, fault),
        None => read_out(ends, end.state),
    }
}

// Reads the site into its tables: the status. `state` is what the last read of the front found.
pub(crate) fn read<I: Read, O, E: Write>(
    ends: &mut Ends<I, O, E>,
    most: usize,
    shown: bool,
    n: u32,
    front: &[u8],
    state: State,
    links: &mut [u8],
    numbers: &mut [u8],
    order: &mut [u16],
) -> u32
    ensures { SourceRead n front.now state (lent links.old numbers.old order.old) result
        (lent links.new numbers.new order.new) }
{
    match kind_of(front) {
        Kind::Script => {
            let end = course::play(ends, most, shown, n, front, state, links, numbers, order);
            played(ends, end)
        }
        Kind::Image => images::read(&mut ends.errors, n, front, links, numbers, order),
    }
}
