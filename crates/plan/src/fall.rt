// The plan of a link going down: both ends lose a neighbour, and where one of them then falls short its level is peeled.
ghost use Rattle.std.specs.Prelude.{◌≡◌};
ghost use Rattle.lists.specs.Kit.{false};
ghost use Rattle.mesh.specs.Limits.{max_radios};
ghost use Rattle.mesh.specs.Lent.{read_of};
ghost use Rattle.plan.specs.Plans.{ReadyOf, PlannedOf};

use super::planned::Plan;
use super::turn::Bound;
use super::{ends, peel, planned, stretch, stuck, turn};
use mesh::{Lent, Site};
use rows::sets::RadioSet;

// Plans the link a-b going down. Before the call each radio of the level has K neighbours or more that are not lower, so that only an end can
// fit before the first turn. Where none does nothing moves and nothing falls.
pub(crate) fn plan_down(
    a: u32,
    b: u32,
    t: &Lent,
    places: &[u16],
    not_lower: &mut [u8; Site::RADIOS as usize],
    stretch: &mut [u16; Site::RADIOS as usize],
) -> Plan
    requires { ReadyOf false a b (read_of t.now) places.now not_lower.old }
    ensures { PlannedOf false a b (read_of t.now) result stretch.new }
{
    let call = peel::call_at(false, a, b, t.numbers);
    let by = Bound {
        level: call.level,
        most: call.most,
        numbers: t.numbers,
        places,
    };
    let mut fits = RadioSet::empty();
    turn::release(&ends::both(a as u16, b as u16), &by, not_lower, &mut fits);
    let taken = peel::peel(call, t, places, not_lower, &mut fits, stretch);
    if taken == 0 {
        return planned::unmoved(0);
    }
    let at = stretch::stretch_of(t.numbers, call.level);
    stuck::list_stuck(at, call.most, taken, t.order, not_lower, stretch);
    Plan {
        start: at.start,
        size: at.size,
        taken,
    }
}
