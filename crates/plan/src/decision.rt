// The plan of a link call: its questions, and the lower end's stretch laid out anew, by one peel up and down alike, or going up by the walk.
// Nothing of the tables is written.
ghost use Rattle.std.specs.Prelude.{◌≡◌};
ghost use Rattle.lists.specs.Kit.{ℕ, length};
ghost use Rattle.mesh.specs.Limits.{max_neighbours};
ghost use Rattle.mesh.specs.Tables.{graph_in};
ghost use Rattle.mesh.specs.Lent.{read_of};
ghost use Rattle.calls.specs.Answers.{call_number};
ghost use Rattle.calls.specs.Questions.{answer_length, ends_refusal};
ghost use Rattle.soundness.specs.Checks.{Asked};
ghost use Rattle.plan.specs.Plans.{ReadyOf, PlannedOf};
ghost use Rattle.plan.specs.Asked.{PlanContract, plan_start, plan_size, plan_taken};

use super::planned::Plan;
use super::{end_questions, fall, rise};
use calls::Refusal;
use mesh::{Lent, Site};
use soundness::Found;

// Plans the link a-b going up or down: writes what stands in the order from the plan's start on after, in front of `stretch`; later
// entries and the counters hold anything.
pub fn plan_link(
    up: bool,
    a: u32,
    b: u32,
    t: &Lent,
    places: &[u16; Site::RADIOS as usize],
    not_lower: &mut [u8; Site::RADIOS as usize],
    stretch: &mut [u16; Site::RADIOS as usize],
) -> Plan
    requires { ReadyOf up a b (read_of t.now) places.now not_lower.old }
    ensures { PlannedOf up a b (read_of t.now) result stretch.new }
{
    if up {
        return rise::plan_up(a, b, t, places, not_lower, stretch);
    }
    fall::plan_down(a, b, t, places, not_lower, stretch)
}

// Plans the link a-b going up or down by what the check found, once all its questions got "yes"; the counters hold anything after.
fn plan_found(
    up: bool,
    a: u32,
    b: u32,
    t: &Lent,
    found: &mut Found,
    stretch: &mut [u16; Site::RADIOS as usize],
) -> Plan
    requires { (answer : ℕ) ×
        Asked t.now.radios (read_of t.now) (answer_length t.now.radios answer) found.old.places found.old.not_lower 0 ×
        (ends_refusal max_neighbours up t.now.radios a b (graph_in t.now.radios t.now.links.now) ≡ 0) }
    ensures { PlannedOf up a b (read_of t.now) result stretch.new }
{
    plan_link(up, a, b, t, &found.places, &mut found.not_lower, stretch)
}

// Plans the link a-b going up or down, unless one of its questions, 1 to 7 or 1 to 6, gets "no": writes what it lays out anew of the
// lower end's stretch in front of `stretch`, whose later entries hold anything. `answer` is the answer table's length. A refusal leaves
// `stretch` as it was.
pub fn plan(
    up: bool,
    t: &Lent,
    a: u32,
    b: u32,
    answer: usize,
    stretch: &mut [u16; Site::RADIOS as usize],
) -> Result<Plan, Refusal>
    ensures { PlanContract up t.now.radios a b (read_of t.now) answer stretch.old
        (call_number result) (plan_start result) (plan_size result) (plan_taken result) stretch.new }
{
    let mut found = Found::new();
    if let Err(refusal) = soundness::asked(
        t,
        t.radios as usize <= answer,
        &mut found.places,
        &mut found.not_lower,
    ) {
        return Err(refusal);
    }
    if let Err(refusal) = end_questions::ask_ends(up, t.radios, a, b, t.links) {
        return Err(refusal);
    }
    Ok(plan_found(up, a, b, t, &mut found, stretch))
}
