// The store of marks: 8 places, used ones first, in rising order of name.
ghost use Rattle.std.specs.Prelude.{◌≡◌, ◌≤◌, ◌<◌};
ghost use Rattle.lists.specs.Kit.{true, length};
ghost use Rattle.mesh.specs.Limits.{size_good};
ghost use Rattle.mesh.specs.Lent.{read_of};
ghost use Rattle.mesh.specs.Sound.{sound};
ghost use Rattle.mesh.specs.Marks.{places, store_bytes, before, name_at, marks_in, is_store};
ghost use Rattle.mesh.specs.MarkPlaces.{rank};
ghost use Rattle.calls.specs.{Answers.{call_number}, Questions.{lengths_of}};
ghost use Rattle.calls.specs.Marks.{mark_refusal};
ghost use Rattle.marks.specs.Store.{last_name, Counted, Located, SpotFound};

use super::places::{NAME, PLACE};
use super::{names, places, zeros};
use calls::Refusal;
use mesh::Lent;
use tables::fill;

pub const PLACES: usize = 8;

pub const STORE: usize = PLACES * PLACE;

// How many places are used: the ones before the first that is all zero.
fn count_used(store: &[u8]) -> usize
    requires { length store.now ≡ store_bytes }
    ensures { Counted store.now result }
{
    for i in 0..PLACES {
        let at = PLACE * i;
        let end = at + PLACE;
        if zeros::are_zeros(&store[at..end]) {
            return i;
        }
    }
    PLACES
}

// Whether the name of place i stands after that of the place before it; yes for the first.
fn is_rising(store: &[u8], i: usize) -> bool
    requires { (length store.now ≡ store_bytes) × (i < places) }
    ensures { result ≡ before (last_name store.now i) (name_at store.now i) }
{
    let at = PLACE * i;
    let end = at + NAME;
    if i == 0 {
        return names::is_before(&store[0..0], &store[at..end]);
    }
    let last = at - PLACE;
    let last_end = last + NAME;
    names::is_before(&store[last..last_end], &store[at..end])
}

// Whether the store keeps the rules: the k used places are marks in rising order of name, and all after them is zero.
fn is_store(n: u32, store: &[u8], k: usize) -> bool
    requires { (size_good n ≡ true) × Counted store.now k }
    ensures { result ≡ is_store n store.now }
{
    for i in 0..k {
        let at = PLACE * i;
        let end = at + PLACE;
        if !places::is_mark(n, &store[at..end]) {
            return false;
        }
        if !is_rising(store, i) {
            return false;
        }
    }
    let rest = PLACE * k;
    zeros::are_zeros(&store[rest..])
}

// How many of the k used places have names that stand before the given one: where it stands or is to stand.
fn rank_of(store: &[u8], k: usize, name: &[u8]) -> usize
    requires { Counted store.now k }
    ensures { (result ≡ rank name.now (marks_in store.now)) × (result ≤ k) }
{
    for i in 0..k {
        let at = PLACE * i;
        let end = at + NAME;
        if !names::is_before(&store[at..end], name) {
            return i;
        }
    }
    k
}

// Where a name stands: how many places are used, how many names stand before it, and whether the next one is the name.
#[derive(Clone, Copy)]
pub struct Spot {
    pub used: usize,
    pub rank: usize,
    pub there: bool,
}

// Finds the spot of the name.
fn locate(store: &[u8], used: usize, name: &[u8]) -> Spot
    requires { Counted store.now used }
    ensures { Located store.now name.now result.used result.rank result.there }
{
    let rank = rank_of(store, used, name);
    if rank == used {
        return Spot {
            used,
            rank,
            there: false,
        };
    }
    let at = PLACE * rank;
    let end = at + NAME;
    Spot {
        used,
        rank,
        there: fill::is_same(&store[at..end], name),
    }
}

// The spot of the name. Refused by questions 1, 2, 3 and 17 of a call on marks.
pub fn spot_of(t: &Lent, name: &[u8], store: &[u8]) -> Result<Spot, Refusal>
    ensures asked { call_number result ≡ mark_refusal t.now.radios (lengths_of (read_of t.now)) (sound t.now.radios (read_of t.now))
        name.now store.now 0 }
    ensures located { SpotFound store.now name.now result }
{
    if let Err(refusal) = soundness::ask(t, store.len() == STORE) {
        return Err(refusal);
    }
    let used = count_used(store);
    if !is_store(t.radios, store, used) {
        return Err(Refusal::Mark);
    }
    if !names::is_name(name) {
        return Err(Refusal::Mark);
    }
    Ok(locate(store, used, name))
}
