// The backbone: the radios whose number is the greatest in their own connected part, where that is not 0. Parts are flooded in
// turn, each from its lowest radio.
ghost use Rattle.std.specs.Prelude.{◌≡◌, ◌≤◌};
ghost use Rattle.lists.specs.Kit.{length, get_or};
ghost use Rattle.mesh.specs.Limits.{max_radios};
ghost use Rattle.mesh.specs.Lent.{read_of};
ghost use Rattle.calls.specs.Answers.{value_reply};
ghost use Rattle.calls.specs.CallContracts.{BackboneContract};
ghost use Rattle.floods.specs.Floods.{Floodable};
ghost use Rattle.queries.specs.Parts.{part_greatest, top_put, tops_put, PartVisited, BackbonePut};

use calls::Refusal;
use mesh::{Lent, Site};
use rows::sets::RadioSet;

// The number of radio v; past the table 0.
fn number_in(numbers: &[u8], v: u16) -> u8
    ensures { result ≡ get_or numbers.now v 0 }
{
    let at = v as usize;
    if at < numbers.len() { numbers[at] } else { 0 }
}

// The greatest number of the listed radios; 0 where there are none.
fn greatest_of<'a>(numbers: &'a [u8], list: &'a [u16]) -> u8
    ensures { result ≡ part_greatest numbers.now list.now }
{
    let mut top: u8 = 0;
    for v in list {
        top = tables::numbers::larger(top, number_in(numbers, *v));
    }
    top
}

// Puts v into the set where its number is `top`.
fn put_top(numbers: &[u8], top: u8, v: u16, set: &mut RadioSet)
    ensures { set.new ≡ top_put numbers.now top v set.old }
{
    if number_in(numbers, v) != top {
        return;
    }
    set.put_in(v as u32);
}

// Puts those of the listed radios into the set whose number is `top`.
fn put_tops<'a>(numbers: &'a [u8], top: u8, list: &'a [u16], set: &mut RadioSet)
    ensures { set.new ≡ tops_put numbers.now top list.now set.old }
{
    for v in list {
        put_top(numbers, top, *v, set);
    }
}

// Radio v: where it is among the rest, its connected part leaves the rest, and the radios of the part that have its greatest number
// come into the set, unless that number is 0. Else nothing changes. The queue holds anything after.
fn take_part<'a>(
    links: &'a [u8],
    numbers: &'a [u8],
    v: u32,
    rest: &mut RadioSet,
    queue: &mut [u16],
    set: &mut RadioSet,
)
    requires { Floodable v (length queue.old) }
    ensures { PartVisited links.now numbers.now v rest.old
        set.old rest.new set.new }
{
    if !rest.has(v) {
        return;
    }
    let k = floods::flood::flood(links, v, rest, queue);
    let top = greatest_of(numbers, &queue[..k]);
    if top == 0 {
        return;
    }
    put_tops(numbers, top, &queue[..k], set);
}

// For sound tables: the backbone.
fn backbone_of<'a>(links: &'a [u8], numbers: &'a [u8]) -> RadioSet
    requires { length numbers.now ≤ max_radios }
    ensures { BackbonePut links.now numbers.now result }
{
    let mut set = RadioSet::empty();
    let mut rest = floods::level::at_least(numbers, 0);
    let mut queue = [0u16; Site::RADIOS as usize];
    for v in 0..numbers.len() {
        take_part(links, numbers, v as u32, &mut rest, &mut queue, &mut set);
    }
    set
}

// The count of the backbone; its radios stand ascending in front of the answer table, and later entries keep their content. Refused by
// questions 1 to 3, it leaves the answer table as it was.
pub fn backbone(t: &Lent, answer: &mut [u16]) -> Result<u32, Refusal>
    ensures { BackboneContract t.now.radios (read_of t.now) answer.old (value_reply result) answer.new }
{
    if let Err(refusal) = soundness::ask(t, t.radios as usize <= answer.len()) {
        return Err(refusal);
    }
    let set = backbone_of(t.links, t.numbers);
    Ok(set.list(answer))
}
