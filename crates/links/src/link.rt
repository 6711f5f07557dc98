// Link up and link down: asked, planned, applied.
ghost use Rattle.mesh.specs.Lent.{lent};
ghost use Rattle.calls.specs.Answers.{link_reply};
ghost use Rattle.calls.specs.CallContracts.{LinkContract};

use super::apply::{Switch, apply};
use calls::{Change, Refusal};
use mesh::{Lent, Site};
use plan::decision;

// Takes the link between a and b up, by questions 1 to 7, or down, by 1 to 6, and comes back with the step and the count of changed radios.
// The answer table has these ascending in front, and its later entries keep their content. Refused, every table keeps its content.
pub fn link(
    up: bool,
    n: u32,
    a: u32,
    b: u32,
    links: &mut [u8],
    numbers: &mut [u8],
    order: &mut [u16],
    answer: &mut [u16],
) -> Result<Change, Refusal>
    ensures { LinkContract up n a b (lent links.old numbers.old order.old) answer.old (link_reply result)
        (lent links.new numbers.new order.new) answer.new }
{
    let t = Lent {
        radios: n,
        links,
        numbers,
        order,
    };
    let mut stretch = [0u16; Site::RADIOS as usize];
    match decision::plan(up, &t, a, b, answer.len(), &mut stretch) {
        Ok(plan) => {
            let switch = Switch {
                up,
                a,
                b,
                stretch: &stretch,
            };
            Ok(apply(&switch, plan, links, numbers, order, answer))
        }
        Err(refusal) => Err(refusal),
    }
}
