// The first line: `radios N`. It is read byte by byte, so that nothing of the lines after it is read with it.
ghost use Rattle.std.specs.Prelude.{◌≡◌};
ghost use Rattle.player.specs.First.{some_radios};
ghost use Rattle.player.specs.Play.{radios_of};
ghost use Rattle.player.specs.Reading.{ReadsFirst};

use super::input;
use super::input::{State, Unread};
use script::lines::Line;
use std::io::Read;

// The longest first line: `radios 512` and its line feed.
const FIRST_BYTES: usize = 11;

// The radios of a site that the line names; none where it is no first line.
pub fn radios_of(line: &[u8]) -> Option<u32>
    ensures { result ≡ some_radios (radios_of line.now) }
{
    match script::lines::parse(line) {
        Line::Radios(n) if tables::sizes::is_size(n) => Some(n),
        Line::Radios(_) => None,
        Line::Up(_, _) => None,
        Line::Down(_, _) => None,
        Line::Bad => None,
    }
}

// What the first line says: the radios that it names, if it names a site, and what its last read found.
#[derive(Clone, Copy)]
pub struct First {
    pub radios: Option<u32>,
    pub state: State,
}

// Reads the first line; or says why it cannot be read.
pub fn read_first<I: Read>(input: &mut I) -> Result<First, Unread>
    ensures { ReadsFirst result }
{
    let mut line = [0u8; FIRST_BYTES];
    let got = input::fill(input, 1, true, &mut line);
    match got.state {
        State::Failed(why) => Err(why),
        State::GoesOn | State::End => Ok(First {
            radios: radios_of(&line[..got.count]),
            state: got.state,
        }),
    }
}
