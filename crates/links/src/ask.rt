// Asking: what a link call would change.
ghost use Rattle.mesh.specs.Lent.{read_of};
ghost use Rattle.calls.specs.Answers.{link_reply};
ghost use Rattle.calls.specs.CallContracts.{AskContract};

use super::apply::{Switch, report};
use calls::{Change, Refusal};
use mesh::{Lent, Site};
use plan::decision;

// What taking the link between a and b up, by questions 1 to 7, or down, by 1 to 6, would change: the step and the count of changed radios.
// The answer table has these ascending in front, and its later entries keep their content. Refused, it keeps its content.
pub fn ask(up: bool, t: &Lent, a: u32, b: u32, answer: &mut [u16]) -> Result<Change, Refusal>
    ensures { AskContract up t.now.radios a b (read_of t.now) answer.old (link_reply result) answer.new }
{
    let mut stretch = [0u16; Site::RADIOS as usize];
    match decision::plan(up, t, a, b, answer.len(), &mut stretch) {
        Ok(plan) => {
            let switch = Switch {
                up,
                a,
                b,
                stretch: &stretch,
            };
            Ok(report(&switch, plan, answer))
        }
        Err(refusal) => Err(refusal),
    }
}
