// The site cleared, and one line after the first played on it.
ghost use Rattle.std.specs.Prelude.{◌≡◌, ◌*◌, ◌≤◌, ◌<◌};
ghost use Rattle.lists.specs.Kit.{length, take};
ghost use Rattle.mesh.specs.Limits.{max_radios, row_bytes};
ghost use Rattle.mesh.specs.Lent.{lent};
ghost use Rattle.calls.specs.Answers.{link_reply};
ghost use Rattle.calls.specs.CallContracts.{LinkContract};
ghost use Rattle.player.specs.Reading.{SiteCleared};
ghost use Rattle.std.specs.Option.{is_some, unwrap_or};
ghost use Rattle.script.specs.Lines.{line_of};
ghost use Rattle.text.specs.Print.{buffer_at};
ghost use Rattle.player.specs.Board.{tables_of, answer_of};
ghost use Rattle.player.specs.Lines.{is_call, Called, Played, Prints};

use super::board::{Board, LINKS_BYTES};
use calls::{Change, Refusal, Reply};
use mesh::Site;
use script::lines::Line;
use script::printing;

impl Board {
    // A cleared site. The tables have their lengths, so that clearing them is not refused.
    pub fn cleared(n: u32) -> Self
        requires { (0 < n) × (n ≤ max_radios) }
        ensures radios { result.radios ≡ n }
        ensures cleared { SiteCleared n (tables_of result) (answer_of result) }
    {
        let many = n as usize;
        let bytes = Site::ROW_BYTES * many;
        let mut links = [0; LINKS_BYTES];
        let mut numbers = [0; Site::RADIOS as usize];
        let mut order = [0; Site::RADIOS as usize];
        let _ = tables::clear::clear(
            n,
            &mut links[..bytes],
            &mut numbers[..many],
            &mut order[..many],
        );
        Board {
            radios: n,
            links,
            numbers,
            order,
            answer: [0; Site::RADIOS as usize],
        }
    }

    // Takes a link up or down.
    pub fn link(&mut self, up: bool, a: u32, b: u32) -> Result<Change, Refusal>
        ensures radios { self.new.radios ≡ self.old.radios }
        ensures called { LinkContract up self.old.radios a b (tables_of self.old) (answer_of self.old) (link_reply result)
            (tables_of self.new) (answer_of self.new) }
    {
        let Board {
            radios,
            links,
            numbers,
            order,
            answer,
        } = self;
        link_parts(up, *radios, a, b, links, numbers, order, answer)
    }
}

// Takes a link up or down on the parts of tables that are a site's.
fn link_parts(
    up: bool,
    n: u32,
    a: u32,
    b: u32,
    links: &mut [u8],
    numbers: &mut [u8],
    order: &mut [u16],
    answer: &mut [u16],
) -> Result<Change, Refusal>
    requires links { row_bytes * n ≤ length links.old }
    requires numbers { n ≤ length numbers.old }
    requires order { n ≤ length order.old }
    requires answer { n ≤ length answer.old }
    ensures { LinkContract up n a b (lent (take (row_bytes * n) links.old) (take n numbers.old) (take n order.old))
        (take n answer.old) (link_reply result)
        (lent (take (row_bytes * n) links.new) (take n numbers.new) (take n order.new)) (take n answer.new) }
{
    let many = n as usize;
    let bytes = Site::ROW_BYTES * many;
    links::link::link(
        up,
        n,
        a,
        b,
        &mut links[..bytes],
        &mut numbers[..many],
        &mut order[..many],
        &mut answer[..many],
    )
}

// Takes a link up or down and puts the call's line.
fn play_call(up: bool, a: u32, b: u32, board: &mut Board, out: &mut [u8], at: usize) -> usize
    ensures radios { board.new.radios ≡ board.old.radios }
    ensures called { Prints (λ text. Called up board.old.radios a b
        (tables_of board.old) (answer_of board.old) text (tables_of board.new) (answer_of board.new))
        (buffer_at out.old at) (buffer_at out.new result) }
{
    let reply = Reply::from(board.link(up, a, b));
    let many = board.radios as usize;
    printing::put_link_line(
        out,
        at,
        reply.number,
        reply.step,
        &board.answer[..many],
        reply.count,
    )
}

// Plays a line, its line feed included: the place after what it printed. A line that is no link call has none; it changes nothing and prints
// nothing.
pub fn play_line(line: &[u8], board: &mut Board, out: &mut [u8], at: usize) -> Option<usize>
    ensures radios { board.new.radios ≡ board.old.radios }
    ensures call { is_some result ≡ is_call (line_of line.now) }
    ensures played { Prints (λ text. Played board.old.radios (line_of line.now)
        (tables_of board.old) (answer_of board.old) text (tables_of board.new) (answer_of board.new))
        (buffer_at out.old at) (buffer_at out.new (unwrap_or result at)) }
{
    match script::lines::parse(line) {
        Line::Up(a, b) => Some(play_call(true, a, b, board, out, at)),
        Line::Down(a, b) => Some(play_call(false, a, b, board, out, at)),
        Line::Radios(_) => None,
        Line::Bad => None,
    }
}
