// The soundness check: document 01's local conditions, decided for any content of tables of the right lengths, and questions 1 to 3,
// which every call over a site puts. An entry is tested before it is used as an index.
#![tactic(auto)]

ghost use Rattle.std.specs.Prelude.{◌≡◌, ◌+◌, ◌*◌, ◌/◌, ◌≤◌, ◌<◌};
ghost use Rattle.std.specs.Option.{is_some};
ghost use Rattle.lists.specs.Kit.{length, replicate};
ghost use Rattle.mesh.specs.Limits.{max_radios, row_bytes};
ghost use Rattle.mesh.specs.Orders.{rising};
ghost use Rattle.mesh.specs.Sound.{number_in, sound};
ghost use Rattle.mesh.specs.Lent.{read_of};
ghost use Rattle.mesh.specs.Tables.{marked};
ghost use Rattle.calls.specs.Questions.{lengths_of, site_refusal};
ghost use Rattle.calls.specs.Answers.{call_number, value_reply};
ghost use Rattle.calls.specs.CallContracts.{CheckContract};
ghost use Rattle.lists.specs.Lists.{EntriesBelow};
ghost use Rattle.rows.specs.Rows.{set_bits};
ghost use Rattle.conditions.specs.Conditions.{sooner_key, highest_word};
ghost use Rattle.soundness.specs.Checks.{Placing, PlacesFound, HighestWords, tally, WalkRoom, Walked, EndsRoom, EndsCounted};
ghost use Rattle.soundness.specs.Checks.{walk_tally, ends_later, ends_high, ends_first, byte_or_zero, RowsRoom, RowChecked, RowsChecked};
ghost use Rattle.soundness.specs.Checks.{Sizes, Held, Asked};

use calls::Refusal;
use mesh::{Lent, Site};

pub mod wake;

// A place that no entry of the order has.
const NOWHERE: u16 = 65535;

// The key of no radio: its radio is 65,535.
const NO_KEY: u32 = 4294967295;

// A word with all bits set.
const ALL_BITS: u64 = 18446744073709551615;

// What the check finds beside its answer: where each radio stands in the order, and how many of its neighbours have a number that is not
// below its own.
#[derive(Drop)]
pub struct Found {
    pub places: [u16; Site::RADIOS as usize],
    pub not_lower: [u8; Site::RADIOS as usize],
}

impl Found {
    // Nothing is found yet.
    pub fn new() -> Self
        ensures places { result.places ≡ replicate max_radios 0 }
        ensures not_lower { result.not_lower ≡ replicate max_radios 0 }
    {
        Self {
            places: [0; Site::RADIOS as usize],
            not_lower: [0; Site::RADIOS as usize],
        }
    }
}

// Writes the place of each radio into `places`. Comes back with whether the order holds each radio below its length once;
// where it does not, `places` holds anything.
pub(crate) fn place(order: &[u16], places: &mut [u16]) -> bool
    requires { (length order.now ≤ length places.old) × (length order.now ≤ max_radios) }
    ensures { Placing order.now places.old places.new result }
{
    let many = order.len();
    tables::fill::fill(&mut places[..many], &NOWHERE);
    for i in 0..order.len() {
        let v = order[i] as usize;
        if order.len() <= v {
            return false;
        }
        if places[v] != NOWHERE {
            return false;
        }
        places[v] = i as u16;
    }
    true
}

// Whether the order has at most 512 entries, no more than `places`, and holds each radio below its length once. Then `places`
// holds where each radio stands; else it holds anything.
pub fn places_of(order: &[u16], places: &mut [u16]) -> bool
    ensures { PlacesFound order.now places.old places.new result }
{
    if (Site::RADIOS as usize) < order.len() {
        return false;
    }
    if places.len() < order.len() {
        return false;
    }
    place(order, places)
}

// Whether the numbers never fall along the order.
fn rises(numbers: &[u8], order: &[u16]) -> bool
    requires { EntriesBelow (length numbers.now) order.now }
    ensures { result ≡ rising (number_in numbers.now) order.now }
{
    let mut last: u8 = 0;
    for i in 0..order.len() {
        let v = order[i] as usize;
        let x = numbers[v];
        if x < last {
            return false;
        }
        last = x;
    }
    true
}

// The key of the radio b at place p, where that is later than `place` and before the key's; else the key. A key is a place and
// then a radio, 16 bits each.
fn sooner(place: u16, p: u16, b: u16, key: u32) -> u32
    ensures { result ≡ sooner_key place p b key }
{
    if p <= place {
        return key;
    }
    let own = p as u32 * 65536 + b as u32;
    if key < own {
        return key;
    }
    own
}

// The highest word whose bits, counted from radio `first`, all are radios of a site of n. A word above it marks a radio at n or above.
fn highest_word(n: u32, first: u32) -> u64
    ensures { result ≡ highest_word n first }
{
    if n <= first {
        return 0;
    }
    let many = n - first;
    if rows::WORD_BITS <= many {
        return ALL_BITS;
    }
    (1 << many) - 1
}

// The highest words of a site of n, one for each word of a row: worked out once, so that no neighbour by itself is held against n.
pub(crate) fn highest_words(n: u32) -> [u64; rows::ROW_WORDS as usize]
    ensures { HighestWords n result }
{
    [
        highest_word(n, 0),
        highest_word(n, 64),
        highest_word(n, 128),
        highest_word(n, 192),
        highest_word(n, 256),
        highest_word(n, 320),
        highest_word(n, 384),
        highest_word(n, 448),
    ]
}

// Whether the row of radio b, which is in the table, marks a.
fn marks(links: &[u8], b: u32, a: u32) -> bool
    requires { row_bytes * b + a / 8 < length links.now }
    ensures { result ≡ marked links.now b a }
{
    links[Site::ROW_BYTES * b as usize + (a / 8) as usize] >> (a % 8) & 1 == 1
}

// What is counted of the ends of a row while each of them marks the row's radio too: how many, how many stand later in the order,
// how many have a number that is not below, and the key of the first later one.
#[derive(Clone, Copy)]
struct Walk {
    count: u8,
    later: u8,
    high: u8,
    key: u32,
}

// Counts the ends that a word marks, from radio `first` on, to what is counted of row a before; none where one of them does not mark a.
// A word above the highest marks a radio that has no row, and so does not mark a; of 0, which most words are, that is not asked.
fn walk_word(
    t: &Lent,
    places: &[u16],
    a: u32,
    first: u32,
    highest: u64,
    word: u64,
    walk: Walk,
) -> Option<Walk>
    requires { EndsRoom a (length t.now.links.now) (length t.now.numbers.now) (length places.now)
        × WalkRoom first (tally walk.count walk.later walk.high walk.key)
        × (highest ≡ highest_word (length t.now.numbers.now) first) }
    ensures { Walked t.now.links.now t.now.numbers.now places.now a
        (tally walk.count walk.later walk.high walk.key) (set_bits 64 first word)
        (is_some result) (walk_tally result) }
{
    let place = places[a as usize];
    let number = t.numbers[a as usize];
    if word == 0 {
        return Some(walk);
    }
    if highest < word {
        return None;
    }
    let mut count = walk.count;
    let mut later = walk.later;
    let mut high = walk.high;
    let mut key = walk.key;
    let mut rest = word;
    while rest != 0 {
        let b = first + u64::trailing_zeros(rest);
        if !marks(t.links, b, a) {
            return None;
        }
        let p = places[b as usize];
        count += 1;
        later += (place < p) as u8;
        key = sooner(place, p, b as u16, key);
        high += (number <= t.numbers[b as usize]) as u8;
        rest = rest & (rest - 1);
    }
    Some(Walk {
        count,
        later,
        high,
        key,
    })
}

// Of the ends of a row: how many stand later in the order than its radio, how many have a number that is not below its own, and the first
// of the later ones, 65,535 when there are none.
#[derive(Clone, Copy)]
pub(crate) struct Ends {
    pub(crate) later: u8,
    pub(crate) high: u8,
    pub(crate) first: u16,
}

// The ends of row a, where it marks at most `Site::NEIGHBOURS` radios, and these are of the site, are not a, and mark a too.
// It is small enough that the compiler gives each caller its own: the check then does not pay for the first.
pub(crate) fn count_ends(
    t: &Lent,
    places: &[u16],
    highest: &[u64; rows::ROW_WORDS as usize],
    a: u32,
) -> Option<Ends>
    requires { EndsRoom a (length t.now.links.now) (length t.now.numbers.now) (length places.now)
        × HighestWords (length t.now.numbers.now) highest.now }
    ensures { EndsCounted (length t.now.numbers.now) t.now.links.now t.now.numbers.now places.now a
        (is_some result) (ends_later result) (ends_high result) (ends_first result) }
{
    if rows::is_marked(t.links, a, a) {
        return None;
    }
    let start = Site::ROW_BYTES * a as usize;
    let end = start + Site::ROW_BYTES;
    let row = &t.links[start..end];
    let mut walk = Walk {
        count: 0,
        later: 0,
        high: 0,
        key: NO_KEY,
    };
    for k in 0..rows::ROW_WORDS {
        let word = rows::word_of(row, k);
        let limit = highest[k as usize];
        let Some(further) = walk_word(t, places, a, rows::WORD_BITS * k, limit, word, walk) else {
            return None;
        };
        if Site::NEIGHBOURS < further.count as u32 {
            return None;
        }
        walk = further;
    }
    Some(Ends {
        later: walk.later,
        high: walk.high,
        first: (walk.key % 65536) as u16,
    })
}

// How many neighbours of a have a number that is not below its own, where document 01's conditions on radio a hold.
fn row_checked(
    t: &Lent,
    places: &[u16],
    highest: &[u64; rows::ROW_WORDS as usize],
    a: u32,
) -> Option<u8>
    requires { RowsRoom t.now.radios (length t.now.links.now) (length t.now.numbers.now) (length places.now)
        × HighestWords t.now.radios highest.now × (a < t.now.radios) }
    ensures { RowChecked t.now.radios t.now.links.now t.now.numbers.now places.now a (is_some result) (byte_or_zero result) }
{
    let Some(ends) = count_ends(t, places, highest, a) else {
        return None;
    };
    let number = t.numbers[a as usize];
    if number < ends.later {
        return None;
    }
    if ends.high < number {
        return None;
    }
    Some(ends.high)
}

// Whether document 01's conditions hold of every radio, and then `not_lower` holds for each of them how many of its neighbours have a
// number that is not below its own; else `not_lower` holds anything.
fn rows_checked(t: &Lent, places: &[u16], not_lower: &mut [u8]) -> bool
    requires { RowsRoom t.now.radios (length t.now.links.now) (length t.now.numbers.now) (length places.now)
        × (t.now.radios ≤ length not_lower.old) }
    ensures { RowsChecked t.now.radios t.now.links.now t.now.numbers.now places.now not_lower.old
        not_lower.new result }
{
    let highest = highest_words(t.radios);
    for a in 0..t.radios {
        let Some(high) = row_checked(t, places, &highest, a) else {
            return false;
        };
        not_lower[a as usize] = high;
    }
    true
}

// Whether tables of the right lengths are sound. Then `places` and `not_lower` tell of each radio of theirs; else they hold anything.
fn is_sound(t: &Lent, places: &mut [u16], not_lower: &mut [u8]) -> bool
    requires { Sizes t.now.radios (lengths_of (read_of t.now)) (length places.old) (length not_lower.old) }
    ensures { Held t.now.radios (read_of t.now) places.new not_lower.new result }
{
    if !place(t.order, places) {
        return false;
    }
    if !rises(t.numbers, t.order) {
        return false;
    }
    rows_checked(t, places, not_lower)
}

// Questions 1 to 3, where `others` is the answer that 2 gets for further tables: the first that gets no. Where none does, `places` holds
// where each radio stands in the order, and `not_lower` how many of its neighbours have a number that is not below its own; else both hold
// anything.
pub fn asked(
    t: &Lent,
    others: bool,
    places: &mut [u16],
    not_lower: &mut [u8],
) -> Result<(), Refusal>
    requires { (max_radios ≤ length places.old) × (max_radios ≤ length not_lower.old) }
    ensures { Asked t.now.radios (read_of t.now) others places.new not_lower.new (call_number result) }
{
    if let Err(refusal) = tables::sizes::ask_with(t, others) {
        return Err(refusal);
    }
    if !is_sound(t, places, not_lower) {
        return Err(Refusal::Unsound);
    }
    Ok(())
}

// Questions 1 to 3 alone.
pub fn ask(t: &Lent, others: bool) -> Result<(), Refusal>
    ensures { call_number result ≡ site_refusal t.now.radios (lengths_of (read_of t.now)) others
        (sound t.now.radios (read_of t.now)) 0 }
{
    let mut found = Found::new();
    asked(t, others, &mut found.places, &mut found.not_lower)
}

// The soundness check: 1 when the tables are sound, 0 when not. Refused by 1 and 2.
pub fn check(t: &Lent) -> Result<u32, Refusal>
    ensures { CheckContract t.now.radios (read_of t.now) (value_reply result) }
{
    if let Err(refusal) = tables::sizes::ask(t) {
        return Err(refusal);
    }
    let mut found = Found::new();
    Ok(is_sound(t, &mut found.places, &mut found.not_lower) as u32)
}
