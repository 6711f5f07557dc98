// Document 01's soundness, tested bit by bit on lent tables of n radios. Nothing of the engine is used.
use super::cells;
use super::model::{ENTRIES, Links, Numbers, Radios, Tables};

// The bits of a row, and the most that may be set.
const BITS: usize = 512;

const NEIGHBOURS: u16 = 40;

// Stands for a radio that has no place.
const NOWHERE: u16 = 65535;

// Bit b of row a.
pub fn bit(links: &Links, a: usize, b: usize) -> bool {
    if ENTRIES <= a {
        return false;
    }
    let byte = links[64 * a + b % BITS / 8];
    (byte >> (b % 8) as u32) & 1 == 1
}

// Writes each radio's place in the order, where no radio has one yet; whether the order holds each once.
fn put_places(n: usize, order: &Radios, places: &mut Radios) -> bool {
    for i in 0..n {
        let v = cells::at(order, i) as usize;
        if n <= v {
            return false;
        }
        if cells::at(places, v) != NOWHERE {
            return false;
        }
        cells::put(places, v, (i % 65536) as u16);
    }
    true
}

// Whether numbers never fall along the order.
fn rises(n: usize, numbers: &Numbers, order: &Radios) -> bool {
    let mut last: u8 = 0;
    for i in 0..n {
        let x = cells::at(numbers, cells::at(order, i) as usize);
        if x < last {
            return false;
        }
        last = x;
    }
    true
}

// What a row has: bits, neighbours later in the order, neighbours whose number is not below its radio's own; and whether all its
// bits are proper.
#[derive(Clone, Copy)]
struct Row {
    proper: bool,
    bits: u16,
    later: u16,
    high: u16,
}

// Whether b, which row a marks, is below n, not a itself, and marks a too.
fn is_proper(n: usize, links: &Links, a: usize, b: usize) -> bool {
    b < n && a != b && bit(links, b, a)
}

impl Row {
    // One more neighbour b of a.
    fn add(&mut self, n: usize, t: &Tables, places: &Radios, a: usize, b: usize) {
        let later = cells::at(places, a) < cells::at(places, b);
        let high = cells::at(&t.numbers, a) <= cells::at(&t.numbers, b);
        self.proper = self.proper && is_proper(n, &t.links, a, b);
        self.bits = self.bits.wrapping_add(1);
        self.later = self.later.wrapping_add(later as u16);
        self.high = self.high.wrapping_add(high as u16);
    }

    // Whether the conditions on a radio with this number hold.
    fn holds(&self, number: u16) -> bool {
        self.bits <= NEIGHBOURS && self.later <= number && number <= self.high && self.proper
    }
}

// What row a has.
fn row_of(n: usize, t: &Tables, places: &Radios, a: usize) -> Row {
    let mut row = Row {
        proper: true,
        bits: 0,
        later: 0,
        high: 0,
    };
    for b in 0..BITS {
        if bit(&t.links, a, b) {
            row.add(n, t, places, a, b);
        }
    }
    row
}

// Whether the conditions on each radio hold.
fn rows_hold(n: usize, t: &Tables, places: &Radios) -> bool {
    for a in 0..n {
        if !row_of(n, t, places, a).holds(cells::at(&t.numbers, a) as u16) {
            return false;
        }
    }
    true
}

// Whether the tables are sound.
pub fn is_sound(n: usize, t: &Tables) -> bool {
    let mut places = [NOWHERE; ENTRIES];
    put_places(n, &t.order, &mut places)
        && rises(n, &t.numbers, &t.order)
        && rows_hold(n, t, &places)
}
