// The walk of a link going up by words, for levels whose radios have many neighbours: the walk of `walk`, turn for turn. What counts for the
// radio at the front is what is left: the order from the beginning end on, without the taken. Numbers never fall along the order, so what
// stands there is above, later in the level, or a candidate. It is counted by words. Neighbours of candidates are kept as a set of
// radios, row joined to row, and only candidates that fell short are due, by place.
ghost use Rattle.std.specs.Prelude.{◌≡◌, ◌≤◌, ◌<◌, ◌+◌};
ghost use Rattle.lists.specs.Kit.{false, List, ℕ, length};
ghost use Rattle.mesh.specs.Limits.{max_radios};
ghost use Rattle.lists.specs.Lists.{head_or};
ghost use Rattle.rows.specs.Sets.{in_set, common};
ghost use Rattle.plan.specs.Places.{next_turn};
ghost use Rattle.plan.specs.Walks.{Sited, WalkSite, WalkDone};
ghost use Rattle.plan.specs.WideWalk.{WordsReach};

use super::ground::Ground;
use super::places::Turn;
use super::planned::Plan;
use super::walk::{Part, Reached, Rise};
use super::{places, walk, wide_steps};
use mesh::Site;
use rows::sets::RadioSet;

// What the walk writes: sets of radios, the ones left, the candidates and their neighbours; sets of places, the ones due and the candidates';
// and the candidates' counters.
#[derive(Drop)]
struct Work {
    left: RadioSet,
    held: RadioSet,
    touched: RadioSet,
    due: RadioSet,
    stay: RadioSet,
    counters: [u8; Site::RADIOS as usize],
}

// Looks at the radio at the front, when no candidate fell short: it is held as a candidate, and its neighbours are touched; or it is taken,
// and the candidates among its neighbours lose one.
fn look(
    ground: &Ground,
    at: Reached,
    work: &mut Work,
    list: &mut [u16; Site::RADIOS as usize],
) -> Reached
    requires site { (numbers : List ℕ) × Sited ground.now numbers }
    requires state { WordsReach ground.now at work.old list.old }
    requires free { (at.front < ground.now.part.size) × ((p : ℕ) → in_set work.old.due p ≡ false) }
    ensures state { WordsReach ground.now result work.new list.new }
    ensures further { (result.front ≡ at.front + 1) × (at.taken ≤ result.taken) }
{
    let rise = ground.rise;
    let mut near = RadioSet::empty();
    let front = at.front;
    let taken = at.taken;
    let v = ground.tail[front];
    wide_steps::join_after(rise.a, rise.b, v as u32, ground.links, &mut near);
    let c = near.count_common(&work.left);
    if (rise.most as u32) < c {
        work.held.put_in(v as u32);
        work.stay.put_in((ground.part.first + front) as u32);
        work.counters[v as usize] = c as u8;
        wide_steps::join_after(rise.a, rise.b, v as u32, ground.links, &mut work.touched);
        return Reached {
            front: front + 1,
            taken,
        };
    }
    list[taken] = v;
    work.left.take_out(v as u32);
    wide_steps::lower(
        &near,
        &work.held,
        rise.most,
        ground.places,
        &mut work.counters,
        &mut work.due,
    );
    Reached {
        front: front + 1,
        taken: taken + 1,
    }
}

// Takes the candidate at place p back: it fell short, and no place before it is due.
fn back(
    ground: &Ground,
    p: usize,
    at: Reached,
    work: &mut Work,
    list: &mut [u16; Site::RADIOS as usize],
) -> Reached
    requires site { (numbers : List ℕ) × Sited ground.now numbers }
    requires state { WordsReach ground.now at work.old list.old }
    requires fallen { (p ≡ head_or max_radios (common work.old.due work.old.due)) × (p < max_radios) }
    ensures state { WordsReach ground.now result work.new list.new }
    ensures further { (result.front ≡ at.front) × (result.taken ≡ at.taken + 1) }
{
    let rise = ground.rise;
    let mut near = RadioSet::empty();
    let taken = at.taken;
    let v = ground.tail[p - ground.part.first];
    wide_steps::join_after(rise.a, rise.b, v as u32, ground.links, &mut near);
    work.due.take_out(p as u32);
    work.stay.take_out(p as u32);
    work.held.take_out(v as u32);
    work.left.take_out(v as u32);
    list[taken] = v;
    wide_steps::lower(
        &near,
        &work.held,
        rise.most,
        ground.places,
        &mut work.counters,
        &mut work.due,
    );
    Reached {
        front: at.front,
        taken: taken + 1,
    }
}

// One turn: a candidate is taken back, or the radio at the front is looked at, or passed where no candidate is its neighbour.
fn step(
    ground: &Ground,
    turn: Turn,
    at: Reached,
    work: &mut Work,
    list: &mut [u16; Site::RADIOS as usize],
) -> Reached
    requires site { (numbers : List ℕ) × Sited ground.now numbers }
    requires state { WordsReach ground.now at work.old list.old }
    requires turn { Some turn ≡ next_turn ground.now.part.first ground.now.part.size at.front at.taken work.old.due }
    ensures state { WordsReach ground.now result work.new list.new }
    ensures further { (1 ≤ result.front) × (at.front + at.taken < result.front + result.taken) }
{
    if let Turn::Back(p) = turn {
        return back(ground, p, at, work, list);
    }
    let front = at.front;
    let taken = at.taken;
    let v = ground.tail[front];
    if work.touched.has(v as u32) {
        return look(ground, at, work, list);
    }
    list[taken] = v;
    work.left.take_out(v as u32);
    Reached {
        front: front + 1,
        taken: taken + 1,
    }
}

// Walks the part, whose entries stand in front of `tail`, the order from its first place on. Writes what it went through, laid out anew, in
// front of the list; later entries hold anything.
pub(crate) fn walk(
    rise: Rise,
    part: Part,
    links: &[u8],
    tail: &[u16],
    places: &[u16],
    list: &mut [u16; Site::RADIOS as usize],
) -> Plan
    requires site { (numbers : List ℕ) × WalkSite rise part links.now numbers tail.now places.now }
    requires room { length list.old ≡ max_radios }
    ensures start { result.start ≡ part.first }
    ensures walked { WalkDone rise part links.now tail.now result.size
        result.taken list.new }
{
    let ground = Ground {
        rise,
        part,
        links,
        tail,
        places,
    };
    let mut work = Work {
        left: wide_steps::set_of(tail),
        held: RadioSet::empty(),
        touched: RadioSet::empty(),
        due: RadioSet::empty(),
        stay: RadioSet::empty(),
        counters: [0; Site::RADIOS as usize],
    };
    let mut at = look(&ground, Reached { front: 0, taken: 0 }, &mut work, list);
    while let Some(turn) = places::next(part, at, &work.due) {
        at = step(&ground, turn, at, &mut work, list);
    }
    places::list_entries(&work.stay, part.first, tail, at.taken, list);
    walk::plan_of(part, at)
}
