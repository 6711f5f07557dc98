// Counts of refusal numbers, and what is compared at each reading.
use std::fmt;

// How often 0, the number asked for, 11 and any other number came, how often a comparison differed, and a digest.
#[derive(Clone, Copy)]
pub(crate) struct Tally {
    accepted: u32,
    asked: u32,
    eleventh: u32,
    others: u32,
    broken: u32,
    pub(crate) digest: u64,
}

impl Tally {
    // Nothing counted.
    pub(crate) fn none() -> Self {
        Self {
            accepted: 0,
            asked: 0,
            eleventh: 0,
            others: 0,
            broken: 0,
            digest: 0,
        }
    }

    // Counts one more reading, with the digest after it.
    pub(crate) fn count(&mut self, asked: u32, number: u32, broken: bool, digest: u64) {
        match number {
            0 => self.accepted = self.accepted.wrapping_add(1),
            11 => self.eleventh = self.eleventh.wrapping_add(1),
            n if n == asked => self.asked = self.asked.wrapping_add(1),
            _ => self.others = self.others.wrapping_add(1),
        }
        self.broken = self.broken.wrapping_add(broken as u32);
        self.digest = digest;
    }
}

impl fmt::Display for Tally {
    fn fmt<W: fmt::Write>(&self, f: &mut fmt::Formatter<W>) -> fmt::Result {
        let Tally {
            accepted,
            asked,
            eleventh,
            others,
            broken,
            digest,
        } = *self;
        write!(
            f,
            "{accepted} {asked} {eleventh} {others} {broken} {digest}"
        )
    }
}
