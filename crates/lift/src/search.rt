// The search over pairs, by lower and then higher radio: for each lower end the pairs that may lift the radio are tried, the lowest higher
// end first, until one lifts it or all are ruled out.
ghost use Rattle.std.specs.Prelude.{◌≡◌, ◌/◌, ◌≤◌, ◌<◌};
ghost use Rattle.lists.specs.Kit.{length, get_or};
ghost use Rattle.lists.specs.Lists.{EntriesBelow};
ghost use Rattle.mesh.specs.Limits.{max_radios, max_neighbours, row_bytes};
ghost use Rattle.rows.specs.{Rows.{neighbours_of}, Sets.{in_set}};
ghost use Rattle.conditions.specs.Conditions.{later_count};
ghost use Rattle.lifting.specs.Tight.{first_end};
ghost use Rattle.lift.specs.Peels.{SoundLinks, Has};
ghost use Rattle.lift.specs.Tries.{SearchSite};
ghost use Rattle.lift.specs.Search.{is_free, SearchPlaces, later_than, place_in, is_tight, may_lift, HigherEnd, PairFound};

use super::tries;
use super::tries::Pairs;
use calls::Ends;
use mesh::{Lent, Site};
use rows::sets::RadioSet;
use soundness::Found;

// Whether v may be an end: its number is not below the level, and it has room for a neighbour.
fn is_free(v: u32, level: u8, t: &Lent) -> bool
    requires { v < length t.now.numbers.now }
    ensures { result ≡ is_free level t.now.links.now t.now.numbers.now v }
{
    if t.numbers[v as usize] < level {
        return false;
    }
    (rows::row_degree(t.links, v) as u32) < Site::NEIGHBOURS
}

// The radios that may be ends.
fn all_free(level: u8, t: &Lent) -> RadioSet
    requires { length t.now.numbers.now ≤ max_radios }
    ensures { Has (length t.now.numbers.now) (is_free level t.now.links.now t.now.numbers.now) result }
{
    let mut free = RadioSet::empty();
    for v in 0..t.numbers.len() {
        if is_free(v as u32, level, t) {
            free.put_in(v as u32);
        }
    }
    free
}

// How many of some radios stand later in the order than a place.
fn count_later(near: &[u16], place: u16, places: &[u16; Site::RADIOS as usize]) -> u8
    requires { (length near.now ≤ max_neighbours) × EntriesBelow max_radios near.now }
    ensures { result ≡ later_than place places.now near.now }
{
    let mut count: u8 = 0;
    for v in near {
        count += (place < places[*v as usize]) as u8;
    }
    count
}

// How many neighbours of radio v stand later in the order than it.
fn later(links: &[u8], places: &[u16; Site::RADIOS as usize], v: u32) -> u8
    requires { SoundLinks links.now × (v < length links.now / row_bytes) }
    ensures { result ≡ later_count places.now v (neighbours_of links.now v) }
{
    let mut near = [0u16; Site::NEIGHBOURS as usize];
    let k = rows::row_neighbours(links, v, &mut near);
    count_later(&near[..k as usize], places[v as usize], places)
}

// Whether a pair may begin at v, for the radio r of the level: v is of the level, stands no later than r, and has exactly as many later
// neighbours as the level.
fn is_tight(v: u32, r: u32, level: u8, t: &Lent, places: &[u16; Site::RADIOS as usize]) -> bool
    requires { SearchPlaces t.now.links.now t.now.numbers.now places.now × (v < length t.now.numbers.now) × (r < length t.now.numbers.now) }
    ensures { result ≡ is_tight level r t.now.links.now t.now.numbers.now places.now v }
{
    if t.numbers[v as usize] != level {
        return false;
    }
    if places[r as usize] < places[v as usize] {
        return false;
    }
    later(t.links, places, v) == level
}

// The radios at which a pair may begin.
fn all_tight(r: u32, t: &Lent, places: &[u16; Site::RADIOS as usize]) -> RadioSet
    requires { SearchPlaces t.now.links.now t.now.numbers.now places.now × (r < length t.now.numbers.now) × (length t.now.numbers.now ≤ max_radios) }
    ensures { Has (length t.now.numbers.now) (is_tight (get_or t.now.numbers.now r 0) r t.now.links.now t.now.numbers.now places.now) result }
{
    let mut tight = RadioSet::empty();
    let level = t.numbers[r as usize];
    for v in 0..t.numbers.len() {
        if is_tight(v as u32, r, level, t, places) {
            tight.put_in(v as u32);
        }
    }
    tight
}

// Whether the pair a, c begins at a tight radio: its end that stands first in the order is one.
fn begins_tight(a: u32, c: u32, places: &[u16; Site::RADIOS as usize], tight: &RadioSet) -> bool
    requires { (a < max_radios) × (c < max_radios) }
    ensures { result ≡ in_set tight.now (first_end (place_in places.now) a c) }
{
    if places[c as usize] < places[a as usize] {
        return tight.has(c);
    }
    tight.has(a)
}

// Which radios may be ends of pairs, and at which a pair may begin.
#[derive(Clone, Copy)]
struct Allowed {
    free: RadioSet,
    tight: RadioSet,
}

// Whether the pair a, c may lift a radio of the level, where a may be an end: c may be one too, the pair begins at a tight radio, and the
// link is down.
fn may_lift(
    a: u32,
    c: u32,
    links: &[u8],
    places: &[u16; Site::RADIOS as usize],
    allowed: &Allowed,
) -> bool
    requires { (a < max_radios) × (c < max_radios) }
    ensures { result ≡ may_lift a links.now places.now allowed.now.free allowed.now.tight c }
{
    if c <= a {
        return false;
    }
    if !allowed.free.has(c) {
        return false;
    }
    if !begins_tight(a, c, places, &allowed.tight) {
        return false;
    }
    !rows::is_marked(links, a, c)
}

// The higher ends of the pairs of a that may lift a radio of the level.
fn all_ends(a: u32, t: &Lent, places: &[u16; Site::RADIOS as usize], allowed: &Allowed) -> RadioSet
    requires { (length t.now.numbers.now ≤ max_radios) × (a < length t.now.numbers.now) }
    ensures { Has (length t.now.numbers.now) (may_lift a t.now.links.now places.now allowed.now.free allowed.now.tight) result }
{
    let mut ends = RadioSet::empty();
    for c in 0..t.numbers.len() {
        if may_lift(a, c as u32, t.links, places, allowed) {
            ends.put_in(c as u32);
        }
    }
    ends
}

// The lowest radio above a whose pair with a lifts r.
fn higher_end(t: &Lent, found: &Found, r: u32, a: u32, allowed: &Allowed) -> Option<u32>
    requires { SearchSite t.now.links.now t.now.numbers.now found.now.not_lower × (r < length t.now.numbers.now) × (a < length t.now.numbers.now) ×
        Has (length t.now.numbers.now) (is_free (get_or t.now.numbers.now r 0) t.now.links.now t.now.numbers.now) allowed.now.free ×
        SearchPlaces t.now.links.now t.now.numbers.now found.now.places ×
        Has (length t.now.numbers.now) (is_tight (get_or t.now.numbers.now r 0) r t.now.links.now t.now.numbers.now found.now.places)
        allowed.now.tight }
    ensures { HigherEnd t.now.links.now r a result }
{
    if !allowed.free.has(a) {
        return None;
    }
    let mut untried = all_ends(a, t, &found.places, allowed);
    if let None = untried.first_common(&untried) {
        return None;
    }
    let mut base = tries::start(t.numbers[r as usize], t.numbers, &found.not_lower);
    let pairs = Pairs {
        links: t.links,
        numbers: t.numbers,
        r,
        a,
    };
    while let Some(b) = tries::settle(&pairs, &mut base, &mut untried) {
        if tries::lifts(&pairs, b, &base, &mut untried) {
            return Some(b);
        }
    }
    None
}

// The first pair that lifts r, by lower radio and then higher.
pub(crate) fn first_pair(t: &Lent, found: &Found, r: u32) -> Option<Ends>
    requires { SearchSite t.now.links.now t.now.numbers.now found.now.not_lower × (r < length t.now.numbers.now) ×
        SearchPlaces t.now.links.now t.now.numbers.now found.now.places }
    ensures { PairFound t.now.links.now r result }
{
    let allowed = Allowed {
        free: all_free(t.numbers[r as usize], t),
        tight: all_tight(r, t, &found.places),
    };
    for a in 0..t.numbers.len() {
        if let Some(high) = higher_end(t, found, r, a as u32, &allowed) {
            return Some(Ends {
                low: a as u32,
                high,
            });
        }
    }
    None
}
