// The peel of a level: the radios that have too few neighbours are taken in turn, up and down alike.
ghost use Rattle.std.specs.Prelude.{◌≡◌, ◌≤◌, ◌<◌, ◌+◌};
ghost use Rattle.lists.specs.Kit.{true, false, min, length, get_or};
ghost use Rattle.lists.specs.Lists.{range};
ghost use Rattle.mesh.specs.Limits.{max_radios};
ghost use Rattle.mesh.specs.Lent.{read_of};
ghost use Rattle.mesh.specs.Peel.{bound};
ghost use Rattle.plan.specs.Turns.{places_fitting, ends_counted, BeginReady};
ghost use Rattle.plan.specs.Peels.{PeelReady, PeelDone};
ghost use Rattle.plan.specs.Plans.{ReadyOf, PlannedOf};

use super::planned::Plan;
use super::stretch::Stretch;
use super::turn::Call;
use super::{ends, stretch, stuck, turn};
use mesh::{Lent, Site};
use rows::sets::RadioSet;

// The call at the lower end's level K: the peel takes radios with at most K neighbours going up, K - 1 going down.
pub(crate) fn call_at(up: bool, a: u32, b: u32, numbers: &[u8]) -> Call
    requires { (a < length numbers.now) × (b < length numbers.now) ×
        (up ≡ false → 1 ≤ min (get_or numbers.now a 0) (get_or numbers.now b 0)) }
    ensures { (result.up ≡ up) × (result.a ≡ a) × (result.b ≡ b) ×
        (result.level ≡ min (get_or numbers.now a 0) (get_or numbers.now b 0)) ×
        (result.most ≡ bound up (min (get_or numbers.now a 0) (get_or numbers.now b 0))) }
{
    let level = ends::lower(numbers[a as usize], numbers[b as usize]);
    if up {
        return Call {
            up,
            a,
            b,
            level,
            most: level,
        };
    }
    Call {
        up,
        a,
        b,
        level,
        most: level - 1,
    }
}

// The counters of both ends are brought to the graph after the call, and the places that fit before the first turn are marked.
fn begin(
    call: Call,
    at: Stretch,
    t: &Lent,
    counters: &mut [u8; Site::RADIOS as usize],
    fits: &mut RadioSet,
)
    requires { BeginReady call at.start at.size t.now.numbers.now t.now.order.now counters.old }
    ensures counted { counters.new
        ≡ ends_counted call.up call.a call.b call.level t.now.numbers.now counters.old }
    ensures marked { fits.new ≡ places_fitting t.now.order.now
        (ends_counted call.up call.a call.b call.level t.now.numbers.now counters.old)
        call.most (range at.start at.size) fits.old }
{
    turn::count_end(call.up, call.level, call.a as usize, t.numbers, counters);
    turn::count_end(call.up, call.level, call.b as usize, t.numbers, counters);
    turn::mark_fitting(at, call.most, t.order, counters, fits);
}

// Takes radios of the level in turn, always the first of the stretch that has at most `most` neighbours among what is left and
// above, until none fits. Writes them in front of the list and comes back with their count; later entries keep their content.
// A stuck radio then has a counter above `most`, a taken one has not. Fitting places are scratch.
// A taken radio releases its neighbours that are left, so that the counters of the taken stand still.
pub(crate) fn peel(
    call: Call,
    t: &Lent,
    places: &[u16],
    counters: &mut [u8; Site::RADIOS as usize],
    fits: &mut RadioSet,
    list: &mut [u16; Site::RADIOS as usize],
) -> usize
    requires { PeelReady call t.now.links.now t.now.numbers.now t.now.order.now
        places.now counters.old fits.old }
    ensures { PeelDone call t.now.links.now t.now.numbers.now
        t.now.order.now result counters.new list.new }
{
    let mut left = RadioSet::full();
    let mut taken: usize = 0;
    while let Some(p) = fits.first_common(fits) {
        let v = t.order[p as usize];
        list[taken] = v;
        taken += 1;
        turn::take_left(call, p, v as u32, t, places, &left, counters, fits);
        left.take_out(v as u32);
    }
    taken
}

// Plans the link a-b going up by the peel: writes the lower end's stretch, laid out anew, in front of `stretch`; later entries and the
// counters hold anything.
pub(crate) fn plan_peel(
    a: u32,
    b: u32,
    t: &Lent,
    places: &[u16],
    not_lower: &mut [u8; Site::RADIOS as usize],
    stretch: &mut [u16; Site::RADIOS as usize],
) -> Plan
    requires { ReadyOf true a b (read_of t.now) places.now not_lower.old }
    ensures { PlannedOf true a b (read_of t.now) result stretch.new }
{
    let call = call_at(true, a, b, t.numbers);
    let at = stretch::stretch_of(t.numbers, call.level);
    let mut fits = RadioSet::empty();
    begin(call, at, t, not_lower, &mut fits);
    let taken = peel(call, t, places, not_lower, &mut fits, stretch);
    stuck::list_stuck(at, call.most, taken, t.order, not_lower, stretch);
    Plan {
        start: at.start,
        size: at.size,
        taken,
    }
}
