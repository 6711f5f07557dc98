// Leaves of the walk by words: sets of radios and of places, and the counters of the candidates.
ghost use Rattle.std.specs.Prelude.{◌≡◌, ◌∷◌, ◌≤◌, ◌<◌};
ghost use Rattle.lists.specs.Kit.{[], ℕ, length, get_or};
ghost use Rattle.mesh.specs.Limits.{max_radios};
ghost use Rattle.lists.specs.Lists.{member};
ghost use Rattle.rows.specs.Rows.{set_bits};
ghost use Rattle.rows.specs.Sets.{in_set, common};
ghost use Rattle.plan.specs.WideSteps.{EndsKnown, JoinedAfter, Lowerable, Lowered};

use super::ends;
use mesh::Site;
use rows::sets::RadioSet;

// Puts the neighbours that v has after the link went up into the set.
pub fn join_after(a: u32, b: u32, v: u32, links: &[u8], set: &mut RadioSet)
    requires { (n : ℕ) × EndsKnown a b v n links.now }
    ensures { JoinedAfter a b v links.now set.old set.new }
{
    set.join_row(links, v);
    let w = ends::other_end(a, b, v);
    if w != v {
        set.put_in(w);
    }
}

// Takes one off the counter of v; its place is due if the counter is then `most`.
fn lower_one(
    v: usize,
    most: u8,
    places: &[u16],
    counters: &mut [u8; Site::RADIOS as usize],
    due: &mut RadioSet,
)
    requires { (v < length places.now) × (v < max_radios) × (v < length counters.old) ×
        (get_or places.now v 0 < max_radios) × (1 ≤ get_or counters.old v 0) }
    ensures { Lowered most places.now (v ∷ []) counters.old due.old counters.new due.new }
{
    counters[v] -= 1;
    if counters[v] == most {
        due.put_in(places[v] as u32);
    }
}

// Does so for the radios of a word's set bits, counted from `first`, the lowest first.
fn lower_word(
    word: u64,
    first: u32,
    most: u8,
    places: &[u16],
    counters: &mut [u8; Site::RADIOS as usize],
    due: &mut RadioSet,
)
    requires { (first ≤ max_radios) × Lowerable places.now (set_bits 64 first word) counters.old }
    ensures { Lowered most places.now (set_bits 64 first word) counters.old due.old
        counters.new due.new }
{
    let mut rest = word;
    while rest != 0 {
        let v = first + u64::trailing_zeros(rest);
        lower_one(v as usize, most, places, counters, due);
        rest = rest & (rest - 1);
    }
}

// Does so for the candidates among the neighbours of a radio.
pub fn lower(
    near: &RadioSet,
    held: &RadioSet,
    most: u8,
    places: &[u16],
    counters: &mut [u8; Site::RADIOS as usize],
    due: &mut RadioSet,
)
    requires { Lowerable places.now (common near.now held.now) counters.old }
    ensures { Lowered most places.now (common near.now held.now) counters.old due.old
        counters.new due.new }
{
    for k in 0..rows::ROW_WORDS {
        let word = near.word(k) & held.word(k);
        lower_word(word, rows::WORD_BITS * k, most, places, counters, due);
    }
}

// The listed radios as a set.
pub fn set_of(list: &[u16]) -> RadioSet
    ensures long { length result ≡ 8 }
    ensures is { (w : ℕ) → w < max_radios → in_set result w ≡ member w list.now }
{
    let mut set = RadioSet::empty();
    for v in list {
        set.put_in(*v as u32);
    }
    set
}
