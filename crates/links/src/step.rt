// One link of a list taken up or down on tables that are known to be sound. What the check finds of them, the place and the not-lower
// count of each radio, is kept up to date from link to link, so that the next one needs no check.
ghost use Rattle.std.specs.Prelude.{◌≡◌, ◌≤◌, ◌<◌, ◌+◌};
ghost use Rattle.lists.specs.Kit.{ℕ, length, get_or};
ghost use Rattle.lists.specs.Lists.{range};
ghost use Rattle.mesh.specs.Limits.{max_radios};
ghost use Rattle.mesh.specs.Lent.{lent};
ghost use Rattle.calls.specs.Answers.{call_number};
ghost use Rattle.links.specs.Steps.{Prepared, StepReady, ChangedBy, Carried, Stepped, places_put};

use super::apply::{Switch, apply};
use super::counts;
use calls::Refusal;
use mesh::{Lent, Site};
use plan::{decision, end_questions};
use soundness::Found;

// What a link changed: so many numbers, and of the order at most `size` entries from `start` on.
#[derive(Clone, Copy)]
struct Outcome {
    count: u32,
    start: usize,
    size: usize,
}

// Takes the link a-b up or down: writes the tables, and the changed radios in front of `changed`, ascending. What is found of the tables is
// left as it was.
fn change(
    up: bool,
    a: u32,
    b: u32,
    links: &mut [u8],
    numbers: &mut [u8],
    order: &mut [u16],
    found: &Found,
    changed: &mut [u16; Site::RADIOS as usize],
) -> Outcome
    requires { StepReady up (length order.old) a b (lent links.old numbers.old order.old) found.now.places found.now.not_lower }
    ensures { ChangedBy up (length order.old) a b (lent links.old numbers.old order.old)
        (lent links.new numbers.new order.new) result.count changed.new result.start result.size }
{
    let t = Lent {
        radios: order.len() as u32,
        links,
        numbers,
        order,
    };
    let mut counters = found.not_lower;
    let mut stretch = [0u16; Site::RADIOS as usize];
    let plan = decision::plan_link(up, a, b, &t, &found.places, &mut counters, &mut stretch);
    let switch = Switch {
        up,
        a,
        b,
        stretch: &stretch,
    };
    let made = apply(&switch, plan, links, numbers, order, changed);
    Outcome {
        count: made.count,
        start: plan.start,
        size: plan.size,
    }
}

// Each radio that stands at one of `size` places of the order from `start` on has that place after; the others keep theirs.
fn put_places(order: &[u16], start: usize, size: usize, places: &mut [u16; Site::RADIOS as usize])
    requires { (start + size ≤ length order.now) × (length order.now ≤ max_radios) ×
        ((p : ℕ) → p < length order.now → get_or order.now p 0 < max_radios) }
    ensures { places.new ≡ places_put order.now (range start size) places.old }
{
    for i in 0..size {
        let p = start + i;
        places[order[p] as usize] = p as u16;
    }
}

// Takes the link a-b up, by questions 4 to 7, or down, by 4 to 6. What is found is told of the later tables then. Refused, every table keeps
// its content.
pub fn step(
    up: bool,
    n: u32,
    a: u32,
    b: u32,
    links: &mut [u8],
    numbers: &mut [u8],
    order: &mut [u16],
    found: &mut Found,
) -> Result<(), Refusal>
    requires { Prepared n (lent links.old numbers.old order.old) found.old.places found.old.not_lower }
    ensures { Stepped up n a b (lent links.old numbers.old order.old) (call_number result)
        (lent links.new numbers.new order.new) found.new.places found.new.not_lower }
{
    if let Err(refusal) = end_questions::ask_ends(up, n, a, b, links) {
        return Err(refusal);
    }
    let mut changed = [0u16; Site::RADIOS as usize];
    let made = change(up, a, b, links, numbers, order, found, &mut changed);
    put_places(order, made.start, made.size, &mut found.places);
    let list = &changed[..made.count as usize];
    counts::renew(a, b, list, links, numbers, &mut found.not_lower);
    Ok(())
}
