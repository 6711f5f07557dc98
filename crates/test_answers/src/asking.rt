// Sites made by batches, and what is asked of them.
use crate::reading;
use crate::reading::Site;
use crate::tally::Tally;
use mesh::Lent;
use std::io;
use std::io::Read;
use test_parts::parts::front;
use test_parts::words;

// Room for two radios more than a site may have, and for 600 links at a time.
const ENTRIES: usize = 514;

const LINKS: usize = 64 * ENTRIES;

const LIST: usize = 1200;

// The tables. They are arrays, as a reference to one has its length in its type: that is cheaper to prove of than a slice.
#[derive(Drop)]
struct Tables {
    links: [u8; LINKS],
    numbers: [u8; ENTRIES],
    order: [u16; ENTRIES],
    list: [u16; LIST],
}

// Asks for as many radios as the file says.
fn ask(s: Site, links: &[u8], numbers: &[u8], order: &[u16], tally: &mut Tally) {
    let lent = Lent {
        radios: s.n,
        links,
        numbers,
        order,
    };
    let mut v = s.start;
    for _ in 0..s.asked {
        tally.answer(lift::lift(&lent, v));
        v = v.wrapping_add(s.step);
    }
}

// Takes the links up, from none where the site begins anew.
fn make(s: Site, links: &mut [u8], numbers: &mut [u8], order: &mut [u16], list: &[u16]) {
    if s.fresh == 1 {
        let _ = tables::clear::clear(s.n, links, numbers, order);
    }
    let _ = links::batch::batch(s.n, links, numbers, order, list);
}

// The tables of the site are the front of the largest ones.
fn build(s: Site, links: &mut [u8], numbers: &mut [u8], order: &mut [u16], list: &[u16]) {
    let n = ENTRIES.min(s.n as usize);
    let i = links.len().min(64 * n);
    let j = numbers.len().min(n);
    let k = order.len().min(n);
    let links = &mut links[..i];
    let numbers = &mut numbers[..j];
    let order = &mut order[..k];
    make(s, links, numbers, order, front(list, s.list));
}

// Bit 0 of a byte of the links is flipped, where `at` is not 0.
fn spoil(t: &mut Tables, at: usize) {
    if at != 0 {
        words::flip8(&mut t.links, at - 1, 1);
    }
}

// The next site of the file.
fn one(file: &mut impl Read, t: &mut Tables, tally: &mut Tally) -> io::Result<()> {
    let s = reading::next_site(file)?;
    words::entries(file, s.list, &mut t.list)?;
    build(s, &mut t.links, &mut t.numbers, &mut t.order, &t.list);
    spoil(t, s.spoil);
    ask(
        s,
        front(&t.links, s.links),
        front(&t.numbers, s.numbers),
        front(&t.order, s.order),
        tally,
    );
    tally.site(s.fresh == 1);
    Ok(())
}

// What a file comes to: all its sites, after their count.
pub fn file(file: &mut impl Read) -> io::Result<Tally> {
    let mut t = Tables {
        links: [0; LINKS],
        numbers: [0; ENTRIES],
        order: [0; ENTRIES],
        list: [0; LIST],
    };
    let mut tally = Tally::none();
    let count = words::word(file)?;
    for _ in 0..count {
        one(file, &mut t, &mut tally)?;
    }
    Ok(tally)
}
