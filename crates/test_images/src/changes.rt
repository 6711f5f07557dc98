// Every byte of an image changed in turn, as it is and with the check of its block mended.
use super::reading::Outcome;
use super::tally::Tally;
use super::{changed, parts, reading};
use std::io;
use test_parts::digest;

// How a byte is changed.
#[derive(Clone, Copy)]
pub(crate) enum How {
    // So much is added to it modulo 256.
    Added(u8),
    // Every bit is flipped.
    Flipped,
    // It is swapped with the next but one, which changes nothing where the two are equal.
    Swapped,
}

impl How {
    // The number that stands for it in the line.
    fn number(self) -> u32 {
        match self {
            How::Added(by) => by as u32,
            How::Flipped => 256,
            How::Swapped => 257,
        }
    }

    // What byte x and the next but one, y, become.
    fn changed(self, x: u8, y: u8) -> (u8, u8) {
        match self {
            How::Added(by) => (x.wrapping_add(by), y),
            How::Flipped => (!x, y),
            How::Swapped => (y, x),
        }
    }
}

// The values of the tables of 5 radios.
const VALUES: usize = 330;

// The digest of every place, number and accepted table.
fn told(h: u64, at: usize, r: Outcome) -> u64 {
    let said = digest::mixed(digest::mixed(h, at as u64), r.number as u64);
    if r.number != 0 {
        return said;
    }
    digest::joined(said, VALUES, r.digest)
}

// Counts one more reading: of the image with byte `at` changed.
fn try_one(t: &mut Tally, how: How, mended: bool, good: &[u8], at: usize) {
    let other = at.wrapping_add(2);
    let (x, y) = how.changed(parts::byte_at(good, at), parts::byte_at(good, other));
    let image = changed::with(good, at, x, other, y, mended);
    let r = reading::read(5, 320, 5, 5, &image);
    let digest = told(t.digest, at, r);
    t.count(10, r.number, reading::is_broken(r), digest);
}

// Changes every byte of an image of 5 radios and 3 blocks in turn, and prints the line: how, whether checks were mended, how often 0, 10,
// 11 and any other number came, how often a refusal changed a table, and the digest.
fn try_line(rt: &impl Print, how: How, mended: bool, good: &[u8]) -> io::Result<()> {
    let mut t = Tally::none();
    for at in 0..good.len() {
        try_one(&mut t, how, mended, good, at);
    }
    println!(rt; "change {} {} {t}", how.number(), mended as u32)
}

// Both lines of a change.
pub(crate) fn try_change(rt: &impl Print, how: How, good: &[u8]) -> io::Result<()> {
    try_line(rt, how, false, good)?;
    try_line(rt, how, true, good)
}
