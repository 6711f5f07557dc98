// The flood: from a radio, over radios of a set. Whom it reaches leaves the set. No recursion: it goes by layers, breadth first. The rows
// of the radios that came in last are joined by words, and what the set has of them comes in next.
ghost use Rattle.std.specs.Prelude.{◌≡◌, ◌≤◌};
ghost use Rattle.lists.specs.Kit.{length};
ghost use Rattle.mesh.specs.Limits.{max_radios};
ghost use Rattle.floods.specs.Floods.{flood_at, RowsJoined, LayerTaken, Floodable, FloodDone};

use rows::sets::RadioSet;

// The neighbours of the radios that stand in the list from place `from` on and before place `to`.
fn join_rows<'a>(links: &'a [u8], list: &'a [u16], from: usize, to: usize) -> RadioSet
    requires { (from ≤ to) × (to ≤ length list.now) }
    ensures { RowsJoined links.now list.now from to result }
{
    let mut reach = RadioSet::empty();
    for i in from..to {
        reach.join_row(links, list[i] as u32);
    }
    reach
}

// Takes the neighbours of the radios that stand in the queue from place `from` on, and before place `count`, out of the set; they
// come behind the first `count` entries of the queue, as many as fit. Comes back with how many entries the queue then has.
fn take_layer(
    links: &[u8],
    set: &mut RadioSet,
    queue: &mut [u16],
    from: usize,
    count: usize,
) -> usize
    requires { (from ≤ count) × (count ≤ length queue.old) × (count ≤ max_radios) }
    ensures { LayerTaken links.now from (flood_at set.old queue.old count)
        (flood_at set.new queue.new result) }
{
    let reach = join_rows(links, queue, from, count);
    count + set.take_common(&reach, &mut queue[count..])
}

// Takes v out of the set, and with it the radios that links lead to from v over radios of the set. Comes back with how many these
// are; they stand in front of the queue, each once, and the rest of it holds anything.
pub fn flood(links: &[u8], v: u32, set: &mut RadioSet, queue: &mut [u16]) -> usize
    requires { Floodable v (length queue.old) }
    ensures { FloodDone links.now v set.old result set.new queue.new }
{
    set.take_out(v);
    queue[0] = v as u16;
    let mut count: usize = 1;
    let mut i: usize = 0;
    while i < count {
        let next = take_layer(links, set, queue, i, count);
        i = count;
        count = next;
    }
    count
}
