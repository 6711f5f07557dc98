// The walk of a link going up (document 001, sections 5 and 6): from the beginning end, the lower one and with equal numbers the earlier,
// forward through its level. A radio that has more than `most` neighbours among what is above, what stands later in the level and the
// candidates becomes a candidate; one that has not is taken, and a candidate that then falls short is taken back, the first in the order
// first. What is no candidate's neighbour is passed without a look at its row. The order is lent from the beginning end's place on.
ghost use Rattle.std.specs.Prelude.{◌≡◌, ◌≤◌, ◌<◌, ◌+◌, ◌-◌};
ghost use Rattle.lists.specs.Kit.{false, List, ℕ, length, get_or, drop, paste, leb};
ghost use Rattle.mesh.specs.Limits.{max_radios, max_neighbours};
ghost use Rattle.lists.specs.Lists.{count, head_or};
ghost use Rattle.rows.specs.Sets.{in_set, common};
ghost use Rattle.plan.specs.Places.{next_turn};
ghost use Rattle.plan.specs.Walks.{is_left, place_touched, places_touched, joined, Known};
ghost use Rattle.plan.specs.Walks.{part_of, WalkSite, WalkDone, Sited, Reaches};

use super::ground::{Ground, Spot};
use super::places::Turn;
use super::planned::Plan;
use super::turn::{Bound, Call};
use super::{places, turn};
use mesh::Site;
use rows::sets::RadioSet;
use tables::fill;

// How a candidate is marked in the table of candidates.
const CANDIDATE: u8 = 1;

// A link going up at its lower end's level: radios with at most `most` neighbours left are taken.
#[derive(Clone, Copy)]
pub(crate) struct Rise {
    pub(crate) a: u32,
    pub(crate) b: u32,
    pub(crate) most: u8,
}

// The part of the level that a walk goes through: `size` entries of the order from place `first` on.
#[derive(Clone, Copy)]
pub(crate) struct Part {
    pub(crate) first: usize,
    pub(crate) size: usize,
}

// How far a walk has come: so many radios of the part, and of these so many taken.
#[derive(Clone, Copy)]
pub(crate) struct Reached {
    pub(crate) front: usize,
    pub(crate) taken: usize,
}

// The candidates: a mark and a counter for each radio, the places due, and the candidates' places.
#[derive(Drop)]
struct Candidates {
    held: [u8; Site::RADIOS as usize],
    counters: [u8; Site::RADIOS as usize],
    due: RadioSet,
    stay: RadioSet,
}

// Whether w counts for a radio at a place of the level: it is above, stands later in the level, or is a candidate.
fn is_left(w: usize, spot: &Spot, held: &[u8; Site::RADIOS as usize]) -> bool
    requires { (w < length spot.now.numbers.now) × (w < length spot.now.places.now) × (w < max_radios) }
    ensures { result ≡ is_left spot.now.level spot.now.place spot.now.numbers.now spot.now.places.now held.now w }
{
    if spot.numbers[w] != spot.level {
        return spot.level < spot.numbers[w];
    }
    if spot.place < spot.places[w] {
        return true;
    }
    held[w] == CANDIDATE
}

// How many of the listed radios count.
fn count_left(near: &[u16], spot: &Spot, held: &[u8; Site::RADIOS as usize]) -> u8
    requires { (length near.now ≤ max_neighbours) ×
        Known (length spot.now.numbers.now) (length spot.now.places.now) max_radios near.now }
    ensures { result ≡ count (is_left spot.now.level spot.now.place spot.now.numbers.now spot.now.places.now held.now) near.now }
{
    let mut n: u8 = 0;
    for w in near {
        n += is_left(*w as usize, spot, held) as u8;
    }
    n
}

// Makes the place of w due, where w stands in the level later than the spot.
fn touch_one(w: usize, spot: &Spot, due: &mut RadioSet)
    requires { (w < length spot.now.numbers.now) × (w < length spot.now.places.now) }
    ensures { due.new ≡ place_touched spot.now.level spot.now.place spot.now.numbers.now spot.now.places.now w due.old }
{
    if spot.numbers[w] == spot.level {
        if spot.place < spot.places[w] {
            due.put_in(spot.places[w] as u32);
        }
    }
}

// Does so for the listed radios.
fn touch(near: &[u16], spot: &Spot, due: &mut RadioSet)
    requires { Known (length spot.now.numbers.now) (length spot.now.places.now) (length spot.now.numbers.now) near.now }
    ensures { due.new ≡ places_touched spot.now.level spot.now.place spot.now.numbers.now spot.now.places.now near.now due.old }
{
    for w in near {
        touch_one(*w as usize, spot, due);
    }
}

// Looks at the radio at the front, when no place before it is due: it is held as a candidate, and its later neighbours in the level are
// due; or it is taken, and the candidates among its neighbours lose one.
fn look(
    ground: &Ground,
    numbers: &[u8],
    at: Reached,
    work: &mut Candidates,
    list: &mut [u16; Site::RADIOS as usize],
) -> Reached
    requires site { Sited ground.now numbers.now }
    requires state { Reaches ground.now at work.old list.old }
    requires free { (at.front < ground.now.part.size) ×
        ((q : ℕ) → q < at.front → in_set work.old.due (ground.now.part.first + q) ≡ false) }
    ensures state { Reaches ground.now result work.new list.new }
    ensures further { (result.front ≡ at.front + 1) × (at.taken ≤ result.taken) }
{
    let rise = ground.rise;
    let places = ground.places;
    let mut row = [0u16; Site::NEIGHBOURS as usize];
    let front = at.front;
    let taken = at.taken;
    let v = ground.tail[front];
    let p = ground.part.first + front;
    work.due.take_out(p as u32);
    let k = turn::neighbours_after(true, rise.a, rise.b, v as u32, ground.links, &mut row) as usize;
    let near = &row[..k];
    let spot = Spot {
        level: rise.most,
        place: p as u16,
        numbers,
        places,
    };
    let c = count_left(near, &spot, &work.held);
    if rise.most < c {
        work.held[v as usize] = CANDIDATE;
        work.stay.put_in(p as u32);
        work.counters[v as usize] = c;
        touch(near, &spot, &mut work.due);
        return Reached {
            front: front + 1,
            taken,
        };
    }
    list[taken] = v;
    let by = Bound {
        level: CANDIDATE,
        most: rise.most,
        numbers: &work.held,
        places,
    };
    turn::release(near, &by, &mut work.counters, &mut work.due);
    Reached {
        front: front + 1,
        taken: taken + 1,
    }
}

// Takes the candidate at place p back: it fell short, and no place before it is due.
fn back(
    ground: &Ground,
    p: usize,
    at: Reached,
    work: &mut Candidates,
    list: &mut [u16; Site::RADIOS as usize],
) -> Reached
    requires site { (numbers : List ℕ) × Sited ground.now numbers }
    requires state { Reaches ground.now at work.old list.old }
    requires fallen { (p ≡ head_or max_radios (common work.old.due work.old.due)) × (p < ground.now.part.first + at.front) }
    ensures state { Reaches ground.now result work.new list.new }
    ensures further { (result.front ≡ at.front) × (result.taken ≡ at.taken + 1) }
{
    let rise = ground.rise;
    let taken = at.taken;
    let v = ground.tail[p - ground.part.first];
    work.held[v as usize] = 0;
    work.stay.take_out(p as u32);
    list[taken] = v;
    let call = Call {
        up: true,
        a: rise.a,
        b: rise.b,
        level: CANDIDATE,
        most: rise.most,
    };
    turn::take_radio(
        call,
        p as u32,
        v as u32,
        ground.links,
        &work.held,
        ground.places,
        &mut work.counters,
        &mut work.due,
    );
    Reached {
        front: at.front,
        taken: taken + 1,
    }
}

// Lists the radios from the front to `until`, as they stand, from place `taken` of the list on: no candidate is their neighbour.
pub(crate) fn pass(front: usize, until: usize, taken: usize, tail: &[u16], list: &mut [u16])
    requires { (front ≤ until) × (until ≤ length tail.now) × (taken + (until - front) ≤ length list.old) }
    ensures { list.new ≡ paste list.old taken (drop front tail.now) (until - front) }
{
    let end = taken + (until - front);
    fill::copy(&mut list[taken..end], &tail[front..until]);
}

// One turn: a candidate is taken back, the front is looked at, or what stands before the next place due is passed.
fn step(
    ground: &Ground,
    numbers: &[u8],
    turn: Turn,
    at: Reached,
    work: &mut Candidates,
    list: &mut [u16; Site::RADIOS as usize],
) -> Reached
    requires site { Sited ground.now numbers.now }
    requires state { Reaches ground.now at work.old list.old }
    requires turn { Some turn ≡ next_turn ground.now.part.first ground.now.part.size at.front at.taken work.old.due }
    ensures state { Reaches ground.now result work.new list.new }
    ensures further { (1 ≤ result.front) × (at.front + at.taken < result.front + result.taken) }
{
    match turn {
        Turn::Back(p) => back(ground, p, at, work, list),
        Turn::Ahead(until) => {
            if until == at.front {
                return look(ground, numbers, at, work, list);
            }
            pass(at.front, until, at.taken, ground.tail, list);
            Reached {
                front: until,
                taken: at.taken + (until - at.front),
            }
        }
    }
}

// What a walk that came so far plans.
pub(crate) fn plan_of(part: Part, at: Reached) -> Plan
    ensures { (result.start ≡ part.first) × (result.size ≡ at.front) × (result.taken ≡ at.taken) }
{
    Plan {
        start: part.first,
        size: at.front,
        taken: at.taken,
    }
}

// Walks the part, whose entries stand in front of `tail`, the order from its first place on. Writes what it went through, laid out anew, in
// front of the list; later entries hold anything.
pub(crate) fn walk(
    rise: Rise,
    part: Part,
    links: &[u8],
    numbers: &[u8],
    tail: &[u16],
    places: &[u16],
    list: &mut [u16; Site::RADIOS as usize],
) -> Plan
    requires site { WalkSite rise part links.now numbers.now tail.now places.now }
    requires room { length list.old ≡ max_radios }
    ensures start { result.start ≡ part.first }
    ensures walked { WalkDone rise part links.now tail.now result.size
        result.taken list.new }
{
    let ground = Ground {
        rise,
        part,
        links,
        tail,
        places,
    };
    let mut work = Candidates {
        held: [0; Site::RADIOS as usize],
        counters: [0; Site::RADIOS as usize],
        due: RadioSet::empty(),
        stay: RadioSet::empty(),
    };
    let mut at = look(
        &ground,
        numbers,
        Reached { front: 0, taken: 0 },
        &mut work,
        list,
    );
    while let Some(turn) = places::next(part, at, &work.due) {
        at = step(&ground, numbers, turn, at, &mut work, list);
    }
    places::list_entries(&work.stay, part.first, tail, at.taken, list);
    plan_of(part, at)
}

// Whether the beginning end, which stands at place `first`, has at most `most` later neighbours with the link: then nothing moves or rises.
pub(crate) fn settled(
    rise: Rise,
    first: usize,
    links: &[u8],
    numbers: &[u8],
    tail: &[u16],
    places: &[u16],
) -> bool
    requires { (size : ℕ) × WalkSite rise (part_of first size) links.now numbers.now tail.now places.now }
    ensures { result ≡ leb (count (joined rise.a rise.b first links.now tail.now (get_or tail.now 0 0))
        (drop 1 tail.now)) rise.most }
{
    let mut row = [0u16; Site::NEIGHBOURS as usize];
    let held = [0u8; Site::RADIOS as usize];
    let v = tail[0];
    let k = turn::neighbours_after(true, rise.a, rise.b, v as u32, links, &mut row) as usize;
    let spot = Spot {
        level: rise.most,
        place: first as u16,
        numbers,
        places,
    };
    count_left(&row[..k], &spot, &held) <= rise.most
}
