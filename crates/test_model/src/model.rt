// What is expected of a site, in one table of 16-bit entries, by sections: whether two radios are linked, an entry for each two;
// numbers, order and answer table; and what peeling writes down. Nothing of the engine is used. An entry that is not there reads
// as 0 and is not written.

// The side of the section of links, and the entries of every other section: one more than 512 radios have.
pub const SIDE: usize = 512;

pub const ENTRIES: usize = 513;

const LINKS: usize = 0;

pub const NUMBERS: usize = SIDE * SIDE;

pub const ORDER: usize = NUMBERS + ENTRIES;

pub const ANSWER: usize = ORDER + ENTRIES;

// Numbers before the call; neighbours left; which part of the order a radio is of; the order that is being laid out.
pub const BEFORE: usize = ANSWER + ENTRIES;

pub const LEFT: usize = BEFORE + ENTRIES;

pub const PARTS: usize = LEFT + ENTRIES;

pub const FRESH: usize = PARTS + ENTRIES;

const LEN: usize = FRESH + ENTRIES;

// The longest tables that a call is lent, and what is expected of them. They are arrays, as a reference to one has its length in its
// type: that is cheaper to prove of than a slice.
pub type Links = [u8; 64 * ENTRIES];

pub type Numbers = [u8; ENTRIES];

pub type Radios = [u16; ENTRIES];

// The four tables that travel together.
#[derive(Drop)]
pub struct Tables {
    pub links: Links,
    pub numbers: Numbers,
    pub order: Radios,
    pub answer: Radios,
}

impl Tables {
    // No links, and numbers, order and answer table full of these entries.
    pub fn full(number: u8, radio: u16) -> Self {
        Self {
            links: [0; 64 * ENTRIES],
            numbers: [number; ENTRIES],
            order: [radio; ENTRIES],
            answer: [radio; ENTRIES],
        }
    }
}

#[derive(Drop)]
pub struct Model {
    entries: [u16; LEN],
}

// Where the links section has the row of a; outside of it for a radio above 511.
fn row_of(a: usize) -> usize {
    if SIDE <= a {
        return LEN;
    }
    LINKS + SIDE * a
}

impl Model {
    // Every entry is 0.
    pub fn new() -> Self {
        Self { entries: [0; LEN] }
    }

    // Entry i of the section.
    pub fn get(&self, section: usize, i: usize) -> u16 {
        if ENTRIES <= i {
            return 0;
        }
        let at = section.wrapping_add(i);
        if at < LEN {
            return self.entries[at];
        }
        0
    }

    pub fn put(&mut self, section: usize, i: usize, x: u16) {
        if ENTRIES <= i {
            return;
        }
        let at = section.wrapping_add(i);
        if at < LEN {
            self.entries[at] = x;
        }
    }

    // Whether a and b are linked.
    pub fn near(&self, a: usize, b: usize) -> bool {
        b < SIDE && self.get(row_of(a), b) == 1
    }

    // Writes a link, up or down.
    pub fn put_link(&mut self, a: usize, b: usize, up: bool) {
        self.put(row_of(a), b, up as u16);
        self.put(row_of(b), a, up as u16);
    }

    // Copies the first n entries of a section to another.
    pub fn copy(&mut self, n: usize, from: usize, to: usize) {
        for i in 0..n {
            let x = self.get(from, i);
            self.put(to, i, x);
        }
    }

    // Writes x to the first n entries of a section.
    pub fn fill(&mut self, n: usize, section: usize, x: u16) {
        for i in 0..n {
            self.put(section, i, x);
        }
    }

    // Writes 0 to n - 1 to the first entries of the order.
    fn index(&mut self, n: usize) {
        for i in 0..n {
            self.put(ORDER, i, (i % 65536) as u16);
        }
    }

    // A cleared site of n radios. Numbers, order and answer hold `number` and `radio` past the site's entries.
    pub fn clear(&mut self, n: usize, number: u16, radio: u16) {
        self.fill(ENTRIES, NUMBERS, number);
        self.fill(ENTRIES, ORDER, radio);
        self.fill(ENTRIES, ANSWER, radio);
        self.fill(n, NUMBERS, 0);
        self.index(n);
    }
}
