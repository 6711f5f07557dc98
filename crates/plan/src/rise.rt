// The plan of a link going up: nothing, the whole level as it stands, a walk from the beginning end on, or the peel of a small level.
ghost use Rattle.std.specs.Prelude.{◌≡◌, ◌≤◌, ◌<◌, ◌+◌};
ghost use Rattle.lists.specs.Kit.{true, ℕ, length, get_or};
ghost use Rattle.lists.specs.Lists.{all};
ghost use Rattle.mesh.specs.Limits.{max_radios};
ghost use Rattle.mesh.specs.Lent.{read_of};
ghost use Rattle.plan.specs.Peels.{stretch};
ghost use Rattle.plan.specs.Plans.{ReadyOf, PlannedOf};
ghost use Rattle.plan.specs.Turns.{fits_linked, stays_linked};
ghost use Rattle.plan.specs.Walks.{Begins};

use super::planned::Plan;
use super::stretch::Stretch;
use super::walk::{Part, Rise};
use super::{ends, peel, planned, stretch, walk, wide_walk};
use mesh::{Lent, Site};

// A level of so many radios or fewer is peeled: the walk reads the rows of all who rise, the peel the rows of the others.
const SMALL: usize = 16;

// From this level on radios have so many neighbours that the walk goes by words.
const WIDE: u8 = 6;

// Plans the link from the beginning end, at place `first`, on. Where that end has at most K later neighbours with the link, nothing moves
// and nothing rises. A small level is peeled; elsewhere the walk goes from that end on.
fn plan_on(
    rise: Rise,
    first: usize,
    t: &Lent,
    places: &[u16],
    not_lower: &mut [u8; Site::RADIOS as usize],
    stretch: &mut [u16; Site::RADIOS as usize],
) -> Plan
    requires ready { ReadyOf true rise.a rise.b (read_of t.now) places.now not_lower.old }
    requires begins { Begins rise.a rise.b rise.most first t.now.numbers.now places.now }
    ensures { PlannedOf true rise.a rise.b (read_of t.now) result stretch.new }
{
    let tail = &t.order[first..];
    if walk::settled(rise, first, t.links, t.numbers, tail, places) {
        return planned::unmoved(first);
    }
    let at = stretch::stretch_of(t.numbers, rise.most);
    if at.size <= SMALL {
        return peel::plan_peel(rise.a, rise.b, t, places, not_lower, stretch);
    }
    let size = at.start + at.size - first;
    let part = Part { first, size };
    if WIDE <= rise.most {
        return wide_walk::walk(rise, part, t.links, tail, places, stretch);
    }
    walk::walk(rise, part, t.links, t.numbers, tail, places, stretch)
}

// Whether radio v, an end or not, has at most `most` neighbours that are not lower with the link. Without it it has `count`.
fn fits(rise: Rise, v: u32, count: u8) -> bool
    ensures { result ≡ fits_linked rise.a rise.b rise.most v count }
{
    if v == rise.a {
        return count < rise.most;
    }
    if v == rise.b {
        return count < rise.most;
    }
    count <= rise.most
}

// Whether no radio of the stretch fits with the link. It stops at the first that does, and reads no row.
fn rises_whole(
    rise: Rise,
    at: Stretch,
    order: &[u16],
    not_lower: &[u8; Site::RADIOS as usize],
) -> bool
    requires { (at.start + at.size ≤ length order.now) × ((p : ℕ) → p < length order.now → get_or order.now p 0 < max_radios) }
    ensures { result ≡ all (stays_linked rise.a rise.b rise.most not_lower.now)
        (stretch order.now at.start at.size) }
{
    for i in 0..at.size {
        let v = order[at.start + i];
        if fits(rise, v as u32, not_lower[v as usize]) {
            return false;
        }
    }
    true
}

// Plans the link a-b going up. Only where the beginning end stands first in its level can the level rise whole: it does where no radio of it
// fits with the link, and then it stands as it stood. At level 0 only ends rise, and the walk reads only their rows.
pub(crate) fn plan_up(
    a: u32,
    b: u32,
    t: &Lent,
    places: &[u16],
    not_lower: &mut [u8; Site::RADIOS as usize],
    stretch: &mut [u16; Site::RADIOS as usize],
) -> Plan
    requires { ReadyOf true a b (read_of t.now) places.now not_lower.old }
    ensures { PlannedOf true a b (read_of t.now) result stretch.new }
{
    let most = ends::lower(t.numbers[a as usize], t.numbers[b as usize]);
    let e = ends::beginning(a as usize, b as usize, t.numbers, places);
    let first = places[e] as usize;
    let rise = Rise { a, b, most };
    if 0 < most && ends::leads(first, most, t.numbers, t.order) {
        let at = stretch::stretch_of(t.numbers, most);
        if rises_whole(rise, at, t.order, not_lower) {
            walk::pass(at.start, at.start + at.size, 0, t.order, stretch);
            return Plan {
                start: at.start,
                size: at.size,
                taken: 0,
            };
        }
    }
    plan_on(rise, first, t, places, not_lower, stretch)
}
