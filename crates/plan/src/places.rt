// Sets of places, and where the next turn of a walk is.
ghost use Rattle.std.specs.Prelude.{◌≡◌, ◌+◌, ◌*◌, ◌≤◌, ◌<◌};
ghost use Rattle.lists.specs.Kit.{ℕ, length, sets};
ghost use Rattle.mesh.specs.Limits.{max_radios};
ghost use Rattle.lists.specs.Lists.{In, head_or};
ghost use Rattle.rows.specs.Rows.{set_bits};
ghost use Rattle.rows.specs.Sets.{common};
ghost use Rattle.plan.specs.Places.{next_turn, Stands, entries_at, set_places};

use super::walk::{Part, Reached};
use mesh::Site;
use rows::sets::RadioSet;
use tables::fill;

// A turn of a walk: the candidate at a place of the order, before the front, is taken back; or nothing before the front is due, and it goes
// ahead, where nothing is due before so many radios of the part.
#[derive(Clone, Copy)]
pub(crate) enum Turn {
    Back(usize),
    Ahead(usize),
}

// The lowest place of the set; where there is none, `end`.
fn lowest(set: &RadioSet, end: usize) -> usize
    ensures { result ≡ head_or end (common set.now set.now) }
{
    match set.first_common(set) {
        Some(p) => p as usize,
        None => end,
    }
}

// The next turn; none when the walk is at its end: no candidate is left, or the part is at its end and nothing is due.
pub(crate) fn next(part: Part, at: Reached, due: &RadioSet) -> Option<Turn>
    requires { (part.first + part.size ≤ max_radios) × (at.front ≤ part.size) }
    ensures { result ≡ next_turn part.first part.size at.front at.taken due.now }
{
    if at.front <= at.taken {
        return None;
    }
    let p = lowest(due, part.first + part.size);
    if p < part.first + at.front {
        return Some(Turn::Back(p));
    }
    if part.size <= at.front {
        return None;
    }
    Some(Turn::Ahead(fill::least(p - part.first, part.size)))
}

// Writes the entries of `tail` at the places of word k of a set, counted from `first` on, into the list from place `at` on, the lowest
// first, and comes back with the place after them.
fn list_word(
    word: u64,
    k: u32,
    first: usize,
    tail: &[u16],
    at: usize,
    list: &mut [u16; Site::RADIOS as usize],
) -> usize
    requires { (k < 8) × (at ≤ max_radios + 64 * k) × Stands first (length tail.now) (set_bits 64 (64 * k) word) }
    ensures counted { result ≡ at + length (set_bits 64 (64 * k) word) }
    ensures listed { list.new ≡ sets list.old at (entries_at first tail.now (set_bits 64 (64 * k) word)) }
{
    let mut rest = word;
    let mut n = at;
    while rest != 0 {
        let p = (rows::WORD_BITS * k + u64::trailing_zeros(rest)) as usize;
        fill::put16(list, n, tail[p - first]);
        rest = rest & (rest - 1);
        n += 1;
    }
    n
}

// Writes the entries of `tail` at the places of the set, counted from `first` on, into the list from place `taken` on, ascending.
pub fn list_entries(
    set: &RadioSet,
    first: usize,
    tail: &[u16],
    taken: usize,
    list: &mut [u16; Site::RADIOS as usize],
)
    requires { (taken ≤ max_radios) × Stands first (length tail.now) (set_places set.now) }
    ensures { list.new ≡ sets list.old taken (entries_at first tail.now (set_places set.now)) }
{
    let mut at = taken;
    for k in 0..rows::ROW_WORDS {
        at = list_word(set.word(k), k, first, tail, at, list);
    }
}
