// Questions 4 to 7 of a link call, put to the rows of its ends. Nothing is written. Rows that are not proper have no graph to ask.
ghost use Rattle.std.specs.Prelude.{◌≡◌, ◌*◌, ◌≤◌};
ghost use Rattle.lists.specs.Kit.{true, length};
ghost use Rattle.mesh.specs.Limits.{max_radios, max_neighbours, row_bytes};
ghost use Rattle.mesh.specs.Tables.{graph_in};
ghost use Rattle.mesh.specs.Sound.{rows_proper};
ghost use Rattle.calls.specs.Questions.{ends_refusal};
ghost use Rattle.calls.specs.Answers.{call_number};

use calls::Refusal;
use mesh::Site;

// Questions 4 to 7, put in turn to proper rows.
pub fn ask_ends(up: bool, n: u32, a: u32, b: u32, links: &[u8]) -> Result<(), Refusal>
    requires { (n ≤ max_radios) × (length links.now ≡ row_bytes * n) × (rows_proper max_neighbours n links.now ≡ true) }
    ensures { call_number result ≡ ends_refusal max_neighbours up n a b (graph_in n links.now) }
{
    if n <= a {
        return Err(Refusal::Radio);
    }
    if n <= b {
        return Err(Refusal::Radio);
    }
    if a == b {
        return Err(Refusal::SameEnds);
    }
    if rows::is_marked(links, a, b) == up {
        return Err(Refusal::LinkState);
    }
    if !up {
        return Ok(());
    }
    if Site::NEIGHBOURS <= rows::row_degree(links, a) as u32 {
        return Err(Refusal::NoRoom);
    }
    if Site::NEIGHBOURS <= rows::row_degree(links, b) as u32 {
        return Err(Refusal::NoRoom);
    }
    Ok(())
}
