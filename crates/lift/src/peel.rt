// The peel of a level, without any new link: radios with at most K neighbours that are left or above are taken, never a, the lower end of
// the pairs tried, and a held radio only with fewer than K, where the link of its pair would not keep it. A counter below 128 is of a radio
// that is left, 128 more of one that is taken, as it was when it was taken; 255 stands for no radio of the level.
ghost use Rattle.std.specs.Prelude.{◌≡◌, ◌||◌, ◌+◌, ◌≤◌, ◌<◌, ◌-◌, ◌∷◌};
ghost use Rattle.lists.specs.Kit.{true, not, []};
ghost use Rattle.mesh.specs.Limits.{max_radios};
ghost use Rattle.lists.specs.Lists.{range, count};
ghost use Rattle.rows.specs.Rows.{set_bits};
ghost use Rattle.rows.specs.Sets.{in_set, common};
ghost use Rattle.lifting.specs.Peeling.{left};
ghost use Rattle.lift.specs.Peels.{is_due, Due, gone_of, Lowered, SoundLinks, NextDue, EarlyDue, PeelState, PeelBegin, PeelEnd};

use mesh::Site;
use rows::sets::RadioSet;

// What a counter grows by when its radio is taken.
pub(crate) const GONE: u8 = 128;

// What a peel goes by: the links, the level, a, the radio r that is to be lifted, the radio whose end ends the peel too, the held radios,
// and the late ones, which are taken last.
#[derive(Clone, Copy)]
pub(crate) struct Terms<'a> {
    pub(crate) links: &'a [u8],
    pub(crate) level: u8,
    pub(crate) a: u32,
    pub(crate) r: u32,
    pub(crate) stop: u32,
    pub(crate) held: &'a RadioSet,
    pub(crate) late: &'a RadioSet,
}

// A peel on its way: the counters, the radios due, and a set that has every radio that is left.
#[derive(Clone, Copy)]
pub(crate) struct Peel {
    pub(crate) counters: [u8; Site::RADIOS as usize],
    due: RadioSet,
    stay: RadioSet,
}

// One less, and 0 of 0.
fn one_less(x: u8) -> u8
    ensures { result ≡ x - 1 }
{
    if x == 0 { 0 } else { x - 1 }
}

// The lowest radio due that is not late.
fn first_early(due: &RadioSet, late: &RadioSet) -> Option<u32>
    ensures { EarlyDue due.now result }
{
    for k in 0..rows::ROW_WORDS {
        let word = due.word(k) & !late.word(k);
        if word != 0 {
            return Some(rows::WORD_BITS * k + u64::trailing_zeros(word));
        }
    }
    None
}

// The radio to take next: the lowest due, a late one only where no other is due.
fn next_due(due: &RadioSet, late: &RadioSet) -> Option<u32>
    ensures { NextDue due.now result }
{
    if let Some(v) = first_early(due, late) {
        return Some(v);
    }
    due.first_common(due)
}

impl Peel {
    // A peel with these counters, which is to run.
    pub(crate) fn new(counters: [u8; Site::RADIOS as usize]) -> Self
        ensures { result.counters ≡ counters }
    {
        Peel {
            counters,
            due: RadioSet::empty(),
            stay: RadioSet::empty(),
        }
    }

    // Whether radio v is to be taken: its counter is at most the level, it is not a, and if it is held the counter is below the level.
    fn is_due(&self, at: &Terms, v: u32) -> bool
        requires { v < max_radios }
        ensures { result ≡ is_due at.now.level at.now.a at.now.held.now self.now.counters v }
    {
        let x = self.counters[v as usize];
        if at.level < x {
            return false;
        }
        if v == at.a {
            return false;
        }
        if x < at.level {
            return true;
        }
        !at.held.has(v)
    }

    // Exactly the radios that are to be taken.
    fn all_due(&self, at: &Terms) -> RadioSet
        ensures { Due at.now.level at.now.a at.now.held.now self.now.counters result }
    {
        let mut due = RadioSet::empty();
        for v in 0..Site::RADIOS {
            if self.is_due(at, v) {
                due.put_in(v);
            }
        }
        due
    }

    // Takes one off the counter of w, where w is left; it is due if it is then to be taken.
    fn lower_one(&mut self, at: &Terms, w: u32)
        requires { w < max_radios }
        ensures lowered { Lowered at.now.level at.now.a at.now.held.now (w ∷ []) self.old.counters self.old.due
            self.new.counters self.new.due }
        ensures stay { self.new.stay ≡ self.old.stay }
    {
        let x = self.counters[w as usize];
        if GONE <= x {
            return;
        }
        self.counters[w as usize] = one_less(x);
        if self.is_due(at, w) {
            self.due.put_in(w);
        }
    }

    // Does so for the radios of a word's set bits, counted from `first`.
    fn lower_word(&mut self, at: &Terms, word: u64, first: u32)
        requires { first + 64 ≤ max_radios }
        ensures lowered { Lowered at.now.level at.now.a at.now.held.now (set_bits 64 first word) self.old.counters self.old.due
            self.new.counters self.new.due }
        ensures stay { self.new.stay ≡ self.old.stay }
    {
        let mut rest = word;
        while rest != 0 {
            self.lower_one(at, first + u64::trailing_zeros(rest));
            rest = rest & (rest - 1);
        }
    }

    // Does so for the radios of a set that may be left.
    fn lower(&mut self, at: &Terms, near: &RadioSet)
        ensures lowered { Lowered at.now.level at.now.a at.now.held.now (common near.now self.old.stay) self.old.counters self.old.due
            self.new.counters self.new.due }
        ensures stay { self.new.stay ≡ self.old.stay }
    {
        for k in 0..rows::ROW_WORDS {
            let word = near.word(k) & self.stay.word(k);
            self.lower_word(at, word, rows::WORD_BITS * k);
        }
    }

    // Takes radio v, which is due: its neighbours that are left have one less.
    fn take(&mut self, at: &Terms, v: u32)
        requires { SoundLinks at.now.links.now ×
            PeelState at.now.links.now at.now.held.now at.now.level at.now.a self.old.stay self.old.counters self.old.due ×
            (v < max_radios) × (in_set self.old.due v ≡ true) }
        ensures state { PeelState at.now.links.now at.now.held.now at.now.level at.now.a self.new.stay self.new.counters self.new.due }
        ensures fewer { count (left self.new.counters) (range 0 max_radios) < count (left self.old.counters) (range 0 max_radios) }
    {
        let mut near = RadioSet::empty();
        self.due.take_out(v);
        self.stay.take_out(v);
        self.counters[v as usize] += GONE;
        near.join_row(at.links, v);
        self.lower(at, &near);
    }

    // Whether no pair of a whose other end stays lifts r: r is taken, or a has fewer neighbours that stay than the level.
    pub(crate) fn is_gone(&self, at: &Terms) -> bool
        requires { (at.now.r < max_radios) × (at.now.a < max_radios) }
        ensures { result ≡ gone_of at.now.level at.now.a at.now.r self.now.counters }
    {
        if GONE <= self.counters[at.r as usize] {
            return true;
        }
        self.counters[at.a as usize] < at.level
    }

    // Whether the peel is over before none is due: no such pair lifts r, or radio `stop` is taken.
    fn is_over(&self, at: &Terms) -> bool
        requires { (at.now.r < max_radios) × (at.now.stop < max_radios) × (at.now.a < max_radios) }
        ensures { result ≡ (gone_of at.now.level at.now.a at.now.r self.now.counters || not (left self.now.counters at.now.stop)) }
    {
        if self.is_gone(at) {
            return true;
        }
        GONE <= self.counters[at.stop as usize]
    }

    // Takes radios that are due, late ones last, until none is due, or radio r or radio `stop` is taken, or a has fewer neighbours that
    // stay than the level. Comes back with whether none is due. A late radio has lost most when it is taken, and is ruled out most often.
    pub(crate) fn run(&mut self, at: &Terms) -> bool
        requires { SoundLinks at.now.links.now ×
            PeelBegin at.now.links.now at.now.held.now at.now.level at.now.a at.now.r at.now.stop self.old.counters ×
            (at.now.a < max_radios) }
        ensures { PeelEnd at.now.links.now at.now.held.now at.now.level at.now.a at.now.r at.now.stop self.new.counters result }
    {
        self.due = self.all_due(at);
        self.stay = RadioSet::full();
        while let Some(v) = next_due(&self.due, at.late) {
            self.take(at, v);
            if self.is_over(at) {
                return false;
            }
        }
        true
    }
}
