// What is added up over the answers of a file.
use calls::{Ends, Pair, Refusal};
use test_parts::digest;

// How many sites there were, for how many radios was asked, how many of them have a pair, how many none, and the digest of the answers.
#[derive(Clone, Copy)]
pub struct Tally {
    pub sites: u64,
    pub asked: u64,
    pub pairs: u64,
    pub none: u64,
    pub digest: u64,
}

// The digest h with one more value.
fn mixed(h: u64, x: u32) -> u64 {
    digest::mixed(h, x as u64)
}

impl Tally {
    pub fn none() -> Self {
        Self {
            sites: 0,
            asked: 0,
            pairs: 0,
            none: 0,
            digest: 0,
        }
    }

    // One more site where it is a new one.
    pub fn site(&mut self, fresh: bool) {
        self.sites = self.sites.wrapping_add(fresh as u64);
    }

    // One more answer.
    pub fn answer(&mut self, answer: Result<Ends, Refusal>) {
        let r = Pair::from(answer);
        let none = r.number == u32::from(Refusal::NoLift);
        self.asked = self.asked.wrapping_add(1);
        self.pairs = self.pairs.wrapping_add((r.number == 0) as u64);
        self.none = self.none.wrapping_add(none as u64);
        self.digest = mixed(mixed(mixed(self.digest, r.number), r.low), r.high);
    }
}
