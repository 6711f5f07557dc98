// Pairs of one lower end tried: the radio's level is peeled with that end and all untried higher ends left alone, and from there, for each pair
// tried, with its two ends. Where the radio is left and both ends have enough, the pair lifts it; else what was taken rules this pair out, and
// others of the same lower end.
ghost use Rattle.std.specs.Prelude.{◌≡◌, ◌≤◌, ◌<◌};
ghost use Rattle.lists.specs.Kit.{cond, eqb, length, get_or};
ghost use Rattle.lists.specs.Lists.{count, range};
ghost use Rattle.mesh.specs.Limits.{max_radios};
ghost use Rattle.rows.specs.Sets.{in_set};
ghost use Rattle.lift.specs.Tries.{counter_start, Started, ruled_out, RuledOut, Trying, Tried};
ghost use Rattle.lift.specs.Tries.{SearchNumbers, Settling, SettledAt, Settled};

use super::peel::{GONE, Peel, Terms};
use mesh::Site;
use rows::sets::RadioSet;

// The counter of what is no radio of the level.
const NO_COUNTER: u8 = 255;

// The pairs tried of a lower end a, for the radio r: the links and numbers, and the two radios.
#[derive(Clone, Copy)]
pub(crate) struct Pairs<'a> {
    pub(crate) links: &'a [u8],
    pub(crate) numbers: &'a [u8],
    pub(crate) r: u32,
    pub(crate) a: u32,
}

// The counter of radio v before the peel.
fn counter_of(v: usize, level: u8, numbers: &[u8], not_lower: &[u8; Site::RADIOS as usize]) -> u8
    requires { length numbers.now ≤ max_radios }
    ensures { result ≡ counter_start level numbers.now not_lower.now v }
{
    if numbers.len() <= v {
        return NO_COUNTER;
    }
    if numbers[v] != level {
        return NO_COUNTER;
    }
    not_lower[v]
}

// What a peel of the level begins with.
pub(crate) fn start(level: u8, numbers: &[u8], not_lower: &[u8; Site::RADIOS as usize]) -> Peel
    requires { length numbers.now ≤ max_radios }
    ensures { Started level numbers.now not_lower.now result.counters }
{
    let mut counters = [0u8; Site::RADIOS as usize];
    for v in 0..Site::RADIOS as usize {
        counters[v] = counter_of(v, level, numbers, not_lower);
    }
    Peel::new(counters)
}

// Whether the pair of a and c is ruled out: c had too few neighbours for the link to keep it when it was taken, or c stays and no such pair lifts
// the radio.
fn is_ruled_out(
    c: u32,
    level: u8,
    gone: bool,
    numbers: &[u8],
    counters: &[u8; Site::RADIOS as usize],
) -> bool
    requires { (c < length numbers.now) × (c < max_radios) }
    ensures { result ≡ ruled_out level gone numbers.now counters.now c }
{
    if level < numbers[c as usize] {
        return gone;
    }
    let x = counters[c as usize];
    if x < GONE {
        return gone;
    }
    (x as u32) < GONE as u32 + level as u32
}

// Takes the radios out of the untried that are ruled out.
fn rule_out(
    level: u8,
    gone: bool,
    numbers: &[u8],
    counters: &[u8; Site::RADIOS as usize],
    untried: &mut RadioSet,
)
    requires { length numbers.now ≤ max_radios }
    ensures { RuledOut level gone numbers.now counters.now untried.old untried.new }
{
    for c in 0..numbers.len() {
        if is_ruled_out(c as u32, level, gone, numbers, counters) {
            untried.take_out(c as u32);
        }
    }
}

// Peels with a and all untried radios left alone, and takes those that the peel rules out out of the untried. Comes back with the lowest
// untried radio, if there is one and a pair of a may lift r.
pub(crate) fn settle(p: &Pairs, base: &mut Peel, untried: &mut RadioSet) -> Option<u32>
    requires { SearchNumbers p.now.links.now p.now.numbers.now × (p.now.r < length p.now.numbers.now) × (p.now.a < length p.now.numbers.now) ×
        Trying p.now.links.now p.now.r p.now.a untried.old ×
        Settling p.now.links.now (get_or p.now.numbers.now p.now.r 0) p.now.a p.now.r untried.old base.old.counters }
    ensures is { Settled p.now.links.now (get_or p.now.numbers.now p.now.r 0) p.now.r p.now.a untried.new base.new.counters result }
    ensures fewer { count (in_set untried.new) (range 0 max_radios) ≤ count (in_set untried.old) (range 0 max_radios) }
{
    let level = p.numbers[p.r as usize];
    let at = Terms {
        links: p.links,
        level,
        a: p.a,
        r: p.r,
        stop: p.r,
        held: untried,
        late: untried,
    };
    if !base.run(&at) {
        return None;
    }
    rule_out(level, false, p.numbers, &base.counters, untried);
    untried.first_common(untried)
}

// The radio whose end ends the peel of the pair with b: b where it is of the level, else r.
fn stop_of(b: u32, r: u32, level: u8, numbers: &[u8]) -> u32
    requires { b < length numbers.now }
    ensures { result ≡ cond (eqb (get_or numbers.now b 0) level) b r }
{
    if numbers[b as usize] == level {
        return b;
    }
    r
}

// Whether the link a-b would lift r: the peel goes on with a and b alone left alone. If not, b is no more untried, nor are others that the peel
// rules out.
pub(crate) fn lifts(p: &Pairs, b: u32, base: &Peel, untried: &mut RadioSet) -> bool
    requires { SearchNumbers p.now.links.now p.now.numbers.now × (p.now.r < length p.now.numbers.now) ×
        SettledAt p.now.links.now (get_or p.now.numbers.now p.now.r 0) p.now.r p.now.a untried.old base.now.counters b }
    ensures { Tried p.now.links.now p.now.r p.now.a b untried.old untried.new result }
{
    let mut peel = *base;
    let mut held = RadioSet::empty();
    let level = p.numbers[p.r as usize];
    held.put_in(b);
    let at = Terms {
        links: p.links,
        level,
        a: p.a,
        r: p.r,
        stop: stop_of(b, p.r, level, p.numbers),
        held: &held,
        late: untried,
    };
    if peel.run(&at) {
        return true;
    }
    let gone = peel.is_gone(&at);
    rule_out(level, gone, p.numbers, &peel.counters, untried);
    untried.take_out(b);
    false
}
