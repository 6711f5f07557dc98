// A planned link call, written into the tables.
ghost use Rattle.std.specs.Prelude.{◌≡◌, ◌+◌, ◌-◌, ◌≤◌};
ghost use Rattle.lists.specs.Kit.{length, take, paste};
ghost use Rattle.lists.specs.Lists.{overwrite};
ghost use Rattle.mesh.specs.Lent.{lent};
ghost use Rattle.plan.specs.Planned.{changed_part};
ghost use Rattle.links.specs.Changes.{in_order, counted_step, PlanFits, Reported, PlanPut, Applied};

use calls::Change;
use plan::planned::Plan;
use rows::sets::RadioSet;
use tables::{fill, steps};

// A link to be taken up or down, and what stands in the order from the plan's start on after, in front of the stretch. The plan goes beside
// it by value: copied into the struct right after it was written in parts, it would wait for all writes before it.
#[derive(Clone, Copy)]
pub struct Switch<'a> {
    pub up: bool,
    pub a: u32,
    pub b: u32,
    pub stretch: &'a [u16],
}

// Writes the listed radios into the answer table, ascending, and comes back with their count; later entries keep their content.
fn list_ascending(list: &[u16], answer: &mut [u16]) -> u32
    ensures counted { result ≡ length (in_order list.now) }
    ensures listed { answer.new
        ≡ overwrite (take (length answer.old) (in_order list.now)) answer.old }
{
    let mut set = RadioSet::empty();
    for v in list {
        set.put_in(*v as u32);
    }
    set.list(answer);
    set.count_common(&set)
}

// The step of a call that changed so many radios: +1 going up, -1 going down, 0 when nothing changed.
fn step_of(up: bool, count: u32) -> i8
    ensures { result ≡ counted_step up count }
{
    if count == 0 {
        return 0;
    }
    if up {
        return 1;
    }
    -1
}

// The part stands in the order before place `end` after; the others keep their places.
fn put_before(order: &mut [u16], end: usize, part: &[u16])
    requires { (length part.now ≤ end) × (end ≤ length order.old) }
    ensures { order.new
        ≡ paste order.old (end - length part.now) part.now (length part.now) }
{
    let start = end - part.len();
    fill::copy(&mut order[start..end], part);
}

// The first `size` entries of the stretch stand in the order from `start` on after; the others keep their places. The stuck
// radios go behind the taken ones and so, going up, before the old members of level K + 1.
fn put_stretch(order: &mut [u16], plan: Plan, stretch: &[u16])
    requires { PlanFits plan.start plan.size plan.taken (length stretch.now) (length order.old) }
    ensures { order.new ≡ paste order.old plan.start stretch.now plan.size }
{
    let end = plan.start + plan.size;
    put_before(order, plan.start + plan.taken, &stretch[..plan.taken]);
    put_before(order, end, &stretch[plan.taken..plan.size]);
}

// Writes the changed radios of a plan into the answer table, ascending, and comes back with their count; later entries keep
// their content. Going up the stuck radios rise, going down the taken ones fall.
fn list_changed(switch: &Switch, plan: Plan, answer: &mut [u16]) -> u32
    requires { (plan.taken ≤ plan.size) × (plan.size ≤ length switch.now.stretch.now) }
    ensures counted { result ≡ length (in_order (changed_part switch.now.up plan.taken plan.size switch.now.stretch.now)) }
    ensures listed { answer.new
        ≡ overwrite (take (length answer.old)
        (in_order (changed_part switch.now.up plan.taken plan.size switch.now.stretch.now))) answer.old }
{
    if switch.up {
        return list_ascending(&switch.stretch[plan.taken..plan.size], answer);
    }
    list_ascending(&switch.stretch[..plan.taken], answer)
}

// What a plan would change: the changed radios stand in front of the answer table, ascending, and it comes back with their count and
// step; later entries keep their content.
pub fn report(switch: &Switch, plan: Plan, answer: &mut [u16]) -> Change
    requires { (plan.taken ≤ plan.size) × (plan.size ≤ length switch.now.stretch.now) }
    ensures { Reported switch.now.up plan.size plan.taken switch.now.stretch.now answer.old
        result answer.new }
{
    let count = list_changed(switch, plan, answer);
    Change {
        step: step_of(switch.up, count),
        count,
    }
}

// Writes a plan into the tables: the link, the numbers of the changed radios, which are the first of the list, the stretch.
pub fn write(
    switch: &Switch,
    plan: Plan,
    links: &mut [u8],
    numbers: &mut [u8],
    order: &mut [u16],
    list: &[u16],
    change: Change,
)
    requires { PlanFits plan.start plan.size plan.taken (length switch.now.stretch.now)
        (length order.old) }
    ensures { PlanPut switch.now.up switch.now.a switch.now.b plan.start plan.size switch.now.stretch.now
        (take change.count list.now) change.step
        (lent links.old numbers.old order.old) (lent links.new numbers.new order.new) }
{
    rows::put_link(links, switch.up, switch.a, switch.b);
    steps::step_numbers(numbers, list, change.count, change.step);
    put_stretch(order, plan, switch.stretch);
}

// Writes a plan into the tables: the link, the changed numbers, the stretch. The answer table gets the changed radios,
// ascending, and it comes back with their count and step.
pub fn apply(
    switch: &Switch,
    plan: Plan,
    links: &mut [u8],
    numbers: &mut [u8],
    order: &mut [u16],
    answer: &mut [u16],
) -> Change
    requires { PlanFits plan.start plan.size plan.taken (length switch.now.stretch.now)
        (length order.old) }
    ensures { Applied switch.now.up switch.now.a switch.now.b plan.start plan.size plan.taken
        switch.now.stretch.now
        (lent links.old numbers.old order.old) answer.old result
        (lent links.new numbers.new order.new) answer.new }
{
    let change = report(switch, plan, answer);
    write(switch, plan, links, numbers, order, answer, change);
    change
}
