// Committing: a link call that is carried out where a proposal is true.
ghost use Rattle.std.specs.Prelude.{◌≡◌, ◌≤◌};
ghost use Rattle.lists.specs.Kit.{length};
ghost use Rattle.mesh.specs.Lent.{lent};
ghost use Rattle.calls.specs.Answers.{link_reply};
ghost use Rattle.calls.specs.CallContracts.{CommitContract};
ghost use Rattle.links.specs.Proposed.{plan_proposes};

use super::apply::{Switch, report, write};
use calls::{Change, Refusal};
use mesh::{Lent, Site};
use plan::decision;
use plan::planned::Plan;
use tables::fill;

// Whether step and list are exactly what the plan would change. The list that it makes is gone before the tables are written: so it has a
// frame of its own.
#[inline(never)]
fn is_proposal(switch: &Switch, plan: Plan, step: i8, list: &[u16]) -> bool
    requires { (plan.taken ≤ plan.size) × (plan.size ≤ length switch.now.stretch.now) }
    ensures { result ≡ plan_proposes switch.now.up plan.size plan.taken switch.now.stretch.now step list.now }
{
    let mut listed = [0u16; Site::RADIOS as usize];
    let change = report(switch, plan, &mut listed);
    if change.step != step {
        return false;
    }
    fill::is_same(list, &listed[..change.count as usize])
}

// Takes the link between a and b up, by questions 1 to 7 and 16, or down, by 1 to 6 and 16, where list and step are exactly what asking
// would give now, and comes back with the step and the count of changed radios. Refused, every table keeps its content.
pub fn commit(
    up: bool,
    n: u32,
    a: u32,
    b: u32,
    step: i8,
    links: &mut [u8],
    numbers: &mut [u8],
    order: &mut [u16],
    list: &[u16],
) -> Result<Change, Refusal>
    ensures { CommitContract up n a b step list.now (lent links.old numbers.old order.old) (link_reply result)
        (lent links.new numbers.new order.new) }
{
    let t = Lent {
        radios: n,
        links,
        numbers,
        order,
    };
    let mut stretch = [0u16; Site::RADIOS as usize];
    match decision::plan(up, &t, a, b, Site::RADIOS as usize, &mut stretch) {
        Ok(plan) => {
            let switch = Switch {
                up,
                a,
                b,
                stretch: &stretch,
            };
            if !is_proposal(&switch, plan, step, list) {
                return Err(Refusal::Proposal);
            }
            let change = Change {
                step,
                count: list.len() as u32,
            };
            write(&switch, plan, links, numbers, order, list, change);
            Ok(change)
        }
        Err(refusal) => Err(refusal),
    }
}
