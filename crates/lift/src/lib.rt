// One link that lifts a radio: the first pair, by lower radio and then higher, whose link is down, would be taken up now, and would raise
// the radio's core number. Only pairs can whose lower number is the radio's own, K, and whose first end in the order has exactly K later
// neighbours and stands no later than the radio. A peel of level K that shows that a pair does not lift the radio rules others out too.
// Refused: 1 to 4, and 20 where there is no such pair. Tables are only read.
#![tactic(auto)]

ghost use Rattle.mesh.specs.Lent.{read_of};
ghost use Rattle.calls.specs.Answers.{pair_reply};
ghost use Rattle.calls.specs.CallContracts.{LiftContract};

use calls::{Ends, Refusal};
use mesh::Lent;
use soundness::Found;

mod peel;
mod search;
mod tries;

// The first pair, by lower radio and then higher, whose link is down, would be taken up now and would raise the number of v. Refused by 1 to
// 4, and by 20 where there is none.
pub fn lift(t: &Lent, v: u32) -> Result<Ends, Refusal>
    ensures { LiftContract t.now.radios v (read_of t.now) (pair_reply result) }
{
    let mut found = Found::new();
    if let Err(refusal) = soundness::asked(t, true, &mut found.places, &mut found.not_lower) {
        return Err(refusal);
    }
    if t.radios <= v {
        return Err(Refusal::Radio);
    }
    match search::first_pair(t, &found, v) {
        Some(ends) => Ok(ends),
        None => Err(Refusal::NoLift),
    }
}
