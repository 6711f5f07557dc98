// The not-lower counts brought up to date after a link: only radios whose own number, neighbours or neighbours' numbers changed are
// counted anew.
ghost use Rattle.std.specs.Prelude.{◌≡◌, ◌+◌, ◌*◌, ◌≤◌, ◌<◌};
ghost use Rattle.lists.specs.Kit.{ℕ, leb, length, get_or};
ghost use Rattle.lists.specs.Lists.{count, In, EntriesBelow};
ghost use Rattle.mesh.specs.Limits.{max_radios, max_neighbours, row_bytes};
ghost use Rattle.rows.specs.Rows.{neighbours_of, set_bits};
ghost use Rattle.rows.specs.Sets.{members};
ghost use Rattle.conditions.specs.Conditions.{high_count};
ghost use Rattle.links.specs.Steps.{around, all_around, Joined, touched, recounted, RowsKnown};

use mesh::Site;
use rows::sets::RadioSet;

// How many of the listed radios have a number that is not below `number`.
fn count_high(near: &[u16], number: u8, numbers: &[u8]) -> u8
    requires { (length near.now ≤ max_neighbours) × EntriesBelow (length numbers.now) near.now }
    ensures { result ≡ count (λ (b : ℕ). leb number (get_or numbers.now b 0)) near.now }
{
    let mut high: u8 = 0;
    for b in near {
        high += (number <= numbers[*b as usize]) as u8;
    }
    high
}

// How many neighbours of v have a number that is not below its own.
fn high_of(v: u32, links: &[u8], numbers: &[u8]) -> u8
    requires { RowsKnown (length numbers.now) links.now numbers.now × (v < length numbers.now) }
    ensures { result ≡ high_count numbers.now v (neighbours_of links.now v) }
{
    let mut near = [0u16; Site::NEIGHBOURS as usize];
    let k = rows::row_neighbours(links, v, &mut near);
    count_high(&near[..k as usize], numbers[v as usize], numbers)
}

// Counts the radios of a word's set bits, counted from `first`, anew.
fn recount_word(
    word: u64,
    first: u32,
    links: &[u8],
    numbers: &[u8],
    not_lower: &mut [u8; Site::RADIOS as usize],
)
    requires { RowsKnown (length numbers.now) links.now numbers.now × (length numbers.now ≤ length not_lower.old) ×
        (first ≤ max_radios) × ((v : ℕ) → In v (set_bits 64 first word) → v < length numbers.now) }
    ensures { not_lower.new
        ≡ recounted links.now numbers.now (set_bits 64 first word) not_lower.old }
{
    let mut rest = word;
    while rest != 0 {
        let v = first + u64::trailing_zeros(rest);
        not_lower[v as usize] = high_of(v, links, numbers);
        rest = rest & (rest - 1);
    }
}

// Counts the radios of the set anew.
fn recount(
    set: &RadioSet,
    links: &[u8],
    numbers: &[u8],
    not_lower: &mut [u8; Site::RADIOS as usize],
)
    requires { RowsKnown (length numbers.now) links.now numbers.now × (length numbers.now ≤ length not_lower.old) ×
        ((v : ℕ) → In v (members set.now) → v < length numbers.now) }
    ensures { not_lower.new
        ≡ recounted links.now numbers.now (members set.now) not_lower.old }
{
    for k in 0..rows::ROW_WORDS {
        recount_word(set.word(k), rows::WORD_BITS * k, links, numbers, not_lower);
    }
}

// Puts v and its neighbours into the set.
fn join_around(v: u32, links: &[u8], set: &mut RadioSet)
    requires { (row_bytes * v + row_bytes ≤ length links.now) × (v < max_radios) }
    ensures { Joined (around links.now v) set.old set.new }
{
    set.put_in(v);
    set.join_row(links, v);
}

// Puts each of the listed radios and its neighbours into the set.
fn join_all(list: &[u16], links: &[u8], set: &mut RadioSet)
    requires { (i : ℕ) → i < length list.now →
        (row_bytes * get_or list.now i 0 + row_bytes ≤ length links.now) × (get_or list.now i 0 < max_radios) }
    ensures { Joined (all_around links.now list.now) set.old set.new }
{
    for v in list {
        join_around(*v as u32, links, set);
    }
}

// After the link a-b changed the listed radios: both ends, these and their neighbours are counted anew.
pub(crate) fn renew(
    a: u32,
    b: u32,
    list: &[u16],
    links: &[u8],
    numbers: &[u8],
    not_lower: &mut [u8; Site::RADIOS as usize],
)
    requires { RowsKnown (length numbers.now) links.now numbers.now × (length numbers.now ≤ length not_lower.old) ×
        (a < length numbers.now) × (b < length numbers.now) × EntriesBelow (length numbers.now) list.now }
    ensures { not_lower.new ≡ recounted links.now numbers.now
        (touched a b list.now links.now) not_lower.old }
{
    let mut set = RadioSet::empty();
    join_all(list, links, &mut set);
    set.put_in(a);
    set.put_in(b);
    recount(&set, links, numbers, not_lower);
}
