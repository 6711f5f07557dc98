// One turn of the peel: a radio is taken, and its neighbours after the call have one neighbour less that can still be taken.
ghost use Rattle.std.specs.Prelude.{◌≡◌, ◌≤◌, ◌<◌, ◌+◌, ◌*◌};
ghost use Rattle.lists.specs.Kit.{false, ℕ, suc, min, length, get_or};
ghost use Rattle.mesh.specs.Limits.{max_radios, max_neighbours, row_bytes};
ghost use Rattle.lists.specs.Lists.{range};
ghost use Rattle.mesh.specs.Tables.{put_bit, put_link};
ghost use Rattle.rows.specs.Rows.{neighbours_of, set_bits};
ghost use Rattle.rows.specs.Sets.{take_out};
ghost use Rattle.plan.specs.Turns.{end_counted, counter_less, released, place_marked, places_released, places_fitting, Releasable};
ghost use Rattle.plan.specs.Turns.{near_left, RowReady, NearReady, ListsNeighbours};

use super::ends;
use super::stretch::Stretch;
use mesh::{Lent, Site};
use rows::sets::RadioSet;

// What a release goes by: radios of `level`, by their numbers, lose a neighbour, and a radio's place fits once its counter is `most`.
#[derive(Clone, Copy)]
pub(crate) struct Bound<'a> {
    pub(crate) level: u8,
    pub(crate) most: u8,
    pub(crate) numbers: &'a [u8],
    pub(crate) places: &'a [u16],
    ghost place_entries: { (i : ℕ) → get_or places.now i 0 < 65536 },
}

// The counter of v is one more going up and one less going down after, where v is of the level; the others keep theirs.
pub(crate) fn count_end(
    up: bool,
    level: u8,
    v: usize,
    numbers: &[u8],
    counters: &mut [u8; Site::RADIOS as usize],
)
    requires { (v < length numbers.now) × (v < max_radios) ×
        (up ≡ false → get_or numbers.now v 0 ≡ level → 1 ≤ get_or counters.old v 0) ×
        (get_or numbers.now v 0 ≡ level → get_or counters.old v 0 < 255) }
    ensures { counters.new ≡ end_counted up level numbers.now v counters.old }
{
    if numbers[v] == level {
        if up {
            counters[v] += 1;
        } else {
            counters[v] -= 1;
        }
    }
}

// Adds to the fitting places each place of the stretch whose radio has a counter of at most `most`.
pub(crate) fn mark_fitting(
    at: Stretch,
    most: u8,
    order: &[u16],
    counters: &[u8; Site::RADIOS as usize],
    fits: &mut RadioSet,
)
    requires { (at.start + at.size ≤ length order.now) × (at.start + at.size ≤ max_radios) ×
        ((p : ℕ) → p < length order.now → get_or order.now p 0 < max_radios) }
    ensures { fits.new
        ≡ places_fitting order.now counters.now most (range at.start at.size) fits.old }
{
    for p in at.start..at.start + at.size {
        let v = order[p] as usize;
        if counters[v] <= most {
            fits.put_in(p as u32);
        }
    }
}

// Takes one off the counter of v, where v is of the level; its place fits if the counter is then `most`.
fn release_one(
    v: usize,
    by: &Bound,
    counters: &mut [u8; Site::RADIOS as usize],
    fits: &mut RadioSet,
)
    requires { (v < length by.now.numbers.now) × (v < length by.now.places.now) × (v < max_radios) ×
        (get_or by.now.numbers.now v 0 ≡ by.now.level → 1 ≤ get_or counters.old v 0) }
    ensures counted { counters.new ≡ counter_less by.now.numbers.now by.now.level v counters.old }
    ensures marked { fits.new ≡ place_marked by.now.numbers.now by.now.places.now by.now.level by.now.most v
        (counter_less by.now.numbers.now by.now.level v counters.old) fits.old }
{
    if by.numbers[v] == by.level {
        counters[v] -= 1;
        if counters[v] == by.most {
            fits.put_in(by.places[v] as u32);
        }
    }
}

// Does so for the listed radios.
pub(crate) fn release(
    near: &[u16],
    by: &Bound,
    counters: &mut [u8; Site::RADIOS as usize],
    fits: &mut RadioSet,
)
    requires { Releasable by.now.numbers.now by.now.places.now by.now.level near.now counters.old }
    ensures counted { counters.new ≡ released by.now.numbers.now by.now.level near.now counters.old }
    ensures marked { fits.new
        ≡ places_released by.now.numbers.now by.now.places.now by.now.level by.now.most near.now
        counters.old fits.old }
{
    for v in near {
        release_one(*v as usize, by, counters, fits);
    }
}

// Releases the radios of a word's set bits, counted from `first`, the lowest first.
fn release_word(
    word: u64,
    first: u32,
    by: &Bound,
    counters: &mut [u8; Site::RADIOS as usize],
    fits: &mut RadioSet,
)
    requires { (first ≤ max_radios) ×
        Releasable by.now.numbers.now by.now.places.now by.now.level (set_bits 64 first word) counters.old }
    ensures counted { counters.new ≡ released by.now.numbers.now by.now.level (set_bits 64 first word) counters.old }
    ensures marked { fits.new
        ≡ places_released by.now.numbers.now by.now.places.now by.now.level by.now.most (set_bits 64 first word)
        counters.old fits.old }
{
    let mut rest = word;
    while rest != 0 {
        let v = first + u64::trailing_zeros(rest);
        release_one(v as usize, by, counters, fits);
        rest = rest & (rest - 1);
    }
}

// Releases the radios that a row marks, which is lent by itself: by its words, with no list between.
fn release_row(
    row: &[u8],
    by: &Bound,
    counters: &mut [u8; Site::RADIOS as usize],
    fits: &mut RadioSet,
)
    requires { (length row.now ≡ row_bytes) ×
        Releasable by.now.numbers.now by.now.places.now by.now.level (neighbours_of row.now 0) counters.old }
    ensures counted { counters.new
        ≡ released by.now.numbers.now by.now.level (neighbours_of row.now 0) counters.old }
    ensures marked { fits.new
        ≡ places_released by.now.numbers.now by.now.places.now by.now.level by.now.most (neighbours_of row.now 0)
        counters.old fits.old }
{
    for k in 0..rows::ROW_WORDS {
        release_word(
            rows::word_of(row, k),
            rows::WORD_BITS * k,
            by,
            counters,
            fits,
        );
    }
}

// A copy of row v with its bit w set or cleared.
fn end_row(up: bool, v: u32, w: u32, links: &[u8]) -> [u8; Site::ROW_BYTES]
    requires { (row_bytes * v + row_bytes ≤ length links.now) × (w < max_radios) }
    ensures { neighbours_of result 0 ≡ neighbours_of (put_bit up v w links.now) v }
{
    let start = Site::ROW_BYTES * v as usize;
    let end = start + Site::ROW_BYTES;
    let mut row = [0u8; Site::ROW_BYTES];
    tables::fill::copy(&mut row, &links[start..end]);
    rows::put_bit(&mut row, up, 0, w);
    row
}

// Writes the radios that row v marks, once its bit w is set or cleared, into the list, ascending, and comes back with their count.
fn end_neighbours(up: bool, v: u32, w: u32, links: &[u8], near: &mut [u16]) -> u8
    requires { (row_bytes * v + row_bytes ≤ length links.now) × (w < max_radios) ×
        (length (neighbours_of (put_bit up v w links.now) v) ≤ min (length near.old) (suc max_neighbours)) }
    ensures { ListsNeighbours (put_bit up v w links.now) v result near.new }
{
    let row = end_row(up, v, w, links);
    rows::row_neighbours(&row, 0, near)
}

// Writes the neighbours that v has after the link a-b went up or down into the list, ascending, and comes back with their count.
pub(crate) fn neighbours_after(
    up: bool,
    a: u32,
    b: u32,
    v: u32,
    links: &[u8],
    near: &mut [u16],
) -> u8
    requires { NearReady up a b v links.now (length near.old) }
    ensures { ListsNeighbours (put_link up a b links.now) v result near.new }
{
    let w = ends::other_end(a, b, v);
    if w != v {
        return end_neighbours(up, v, w, links, near);
    }
    rows::row_neighbours(links, v, near)
}

// A link call at the lower end's level: the peel takes radios with at most `most` neighbours.
#[derive(Clone, Copy)]
pub(crate) struct Call {
    pub(crate) up: bool,
    pub(crate) a: u32,
    pub(crate) b: u32,
    pub(crate) level: u8,
    pub(crate) most: u8,
}

// Takes the radio v at place p: the place fits no more, and the neighbours that v has after the call are released.
// Its row is walked by words and not listed.
pub(crate) fn take_radio(
    call: Call,
    p: u32,
    v: u32,
    links: &[u8],
    numbers: &[u8],
    places: &[u16],
    counters: &mut [u8; Site::RADIOS as usize],
    fits: &mut RadioSet,
)
    requires { RowReady call.a call.b v links.now ×
        Releasable numbers.now places.now call.level
        (neighbours_of (put_link call.up call.a call.b links.now) v) counters.old }
    ensures counted { counters.new ≡ released numbers.now call.level
        (neighbours_of (put_link call.up call.a call.b links.now) v) counters.old }
    ensures marked { fits.new ≡ places_released numbers.now places.now call.level call.most
        (neighbours_of (put_link call.up call.a call.b links.now) v) counters.old
        (take_out p fits.old) }
{
    fits.take_out(p);
    let by = Bound {
        level: call.level,
        most: call.most,
        numbers,
        places,
    };
    let w = ends::other_end(call.a, call.b, v);
    if w != v {
        let row = end_row(call.up, v, w, links);
        release_row(&row, &by, counters, fits);
        return;
    }
    let start = Site::ROW_BYTES * v as usize;
    let end = start + Site::ROW_BYTES;
    release_row(&links[start..end], &by, counters, fits);
}

// Releases the radios that a row marks and that are left.
fn release_left(
    row: &[u8],
    left: &RadioSet,
    by: &Bound,
    counters: &mut [u8; Site::RADIOS as usize],
    fits: &mut RadioSet,
)
    requires { (length row.now ≡ row_bytes) ×
        Releasable by.now.numbers.now by.now.places.now by.now.level (near_left row.now 0 left.now) counters.old }
    ensures counted { counters.new
        ≡ released by.now.numbers.now by.now.level (near_left row.now 0 left.now) counters.old }
    ensures marked { fits.new
        ≡ places_released by.now.numbers.now by.now.places.now by.now.level by.now.most (near_left row.now 0 left.now)
        counters.old fits.old }
{
    for k in 0..rows::ROW_WORDS {
        release_word(
            rows::word_of(row, k) & left.word(k),
            rows::WORD_BITS * k,
            by,
            counters,
            fits,
        );
    }
}

// Takes the radio v at place p: the place fits no more, and of the neighbours that v has after the call the ones that are left are released.
pub(crate) fn take_left(
    call: Call,
    p: u32,
    v: u32,
    t: &Lent,
    places: &[u16],
    left: &RadioSet,
    counters: &mut [u8; Site::RADIOS as usize],
    fits: &mut RadioSet,
)
    requires { RowReady call.a call.b v t.now.links.now ×
        Releasable t.now.numbers.now places.now call.level
        (near_left (put_link call.up call.a call.b t.now.links.now) v left.now) counters.old }
    ensures counted { counters.new ≡ released t.now.numbers.now call.level
        (near_left (put_link call.up call.a call.b t.now.links.now) v left.now) counters.old }
    ensures marked { fits.new ≡ places_released t.now.numbers.now places.now call.level call.most
        (near_left (put_link call.up call.a call.b t.now.links.now) v left.now) counters.old
        (take_out p fits.old) }
{
    fits.take_out(p);
    let by = Bound {
        level: call.level,
        most: call.most,
        numbers: t.numbers,
        places,
    };
    let w = ends::other_end(call.a, call.b, v);
    if w != v {
        let row = end_row(call.up, v, w, t.links);
        release_left(&row, left, &by, counters, fits);
        return;
    }
    let start = Site::ROW_BYTES * v as usize;
    let end = start + Site::ROW_BYTES;
    release_left(&t.links[start..end], left, &by, counters, fits);
}
