// The host: its tables, the calls on them, and what it prints after each.
use crate::reading::{Call, Sizes};
use crate::{asking, calling, reading};
use std::io;
use std::io::Read;
use test_parts::parts::front;
use test_parts::{digest, say, words};

// Room for two radios more than a site may have.
const ENTRIES: usize = 514;

const LINKS: usize = 64 * ENTRIES;

// The bytes of a place of the store.
const PLACE: usize = 44040;

// A byte more than a store has, of 8 places. An image, a page and a one-sided table are shorter.
const BUFFER: usize = 8 * PLACE + 1;

// The tables. They are arrays, as a reference to one has its length in its type: that is cheaper to prove of than a slice. The heard table has the
// name of a mark too, and the fields a proposal or a list of links.
#[derive(Drop)]
struct Tables {
    links: [u8; LINKS],
    numbers: [u8; ENTRIES],
    order: [u16; ENTRIES],
    answer: [u16; asking::PLACES],
    fields: [u16; asking::FIELDS],
    heard: [u8; LINKS],
    buffer: [u8; BUFFER],
}

// What the answer table holds before each call, the nodes before a tree or a proposal is, and the buffer before an image or a page is
// written: no radio, level or name.
pub const KEPT: u16 = 600;

const BYTE: u8 = 165;

// What other hands do to the tables, by numbers that are no call's.
const SPOIL_LINKS: u32 = 21;

const SPOIL_NUMBERS: u32 = 22;

const SPOIL_ORDER: u32 = 23;

const SPOIL_ANSWER: u32 = 24;

const SPOIL_FIELDS: u32 = 25;

const SPOIL_BUFFER: u32 = 26;

const COPY_PLACE: u32 = 27;

// Place `from` of the store copied to place `to`, of 8.
fn copy_place(buffer: &mut [u8; BUFFER], from: u32, to: u32) {
    let a = PLACE * (from % 8) as usize;
    let b = PLACE * (to % 8) as usize;
    buffer.copy_within(a..a + PLACE, b);
}

// Other hands flip bits b at place a of a table, or copy a place of the store.
fn spoil(call: Call, t: &mut Tables) {
    let at = call.a as usize;
    let bits = call.b;
    match call.kind {
        SPOIL_LINKS => words::flip8(&mut t.links, at, bits),
        SPOIL_NUMBERS => words::flip8(&mut t.numbers, at, bits),
        SPOIL_ORDER => words::flip16(&mut t.order, at, bits),
        SPOIL_ANSWER => words::flip16(&mut t.answer, at, bits),
        SPOIL_FIELDS => words::flip16(&mut t.fields, at, bits),
        SPOIL_BUFFER => words::flip8(&mut t.buffer, at, bits),
        COPY_PLACE => copy_place(&mut t.buffer, call.a, bits),
        _ => {}
    }
}

// Lends the front of each table.
fn lend(
    rt: &impl Print,
    call: Call,
    links: &mut [u8],
    numbers: &mut [u8],
    order: &mut [u16],
    answer: &mut [u16],
    fields: &mut [u16],
    heard: &[u8],
    buffer: &mut [u8],
) -> io::Result<()> {
    let i = call.links.min(links.len());
    let j = call.numbers.min(numbers.len());
    let k = call.order.min(order.len());
    let l = call.answer.min(answer.len());
    let f = call.fields.min(fields.len());
    let m = call.room.min(buffer.len());
    calling::put(
        rt,
        call,
        &mut links[..i],
        &mut numbers[..j],
        &mut order[..k],
        &mut answer[..l],
        &mut fields[..f],
        front(heard, call.heard),
        &mut buffer[..m],
    )
}

// Fills what a call is to write.
fn refill(kind: u32, t: &mut Tables) {
    t.answer.fill(KEPT);
    if calling::lists(kind) {
        t.fields.fill(KEPT);
    }
    if calling::prints(kind) {
        t.buffer.fill(BYTE);
    }
}

// The digest of the tables, as much of each as the file says.
fn digest_of(call: Call, t: &Tables) -> u64 {
    let sizes = call.sizes;
    let site = digest::site(
        front(&t.links, sizes.links),
        front(&t.numbers, sizes.entries),
        front(&t.order, sizes.entries),
    );
    let answered = digest::of(site, front(&t.answer, sizes.answer));
    let listed = digest::of(answered, front(&t.fields, sizes.fields));
    let heard = digest::of(listed, front(&t.heard, sizes.heard));
    digest::of(heard, front(&t.buffer, call.seen))
}

// Makes the call, or other hands change a table, and ends the line. Comes back with whether the digest shows what other hands did.
fn line(rt: &impl Print, call: Call, t: &mut Tables) -> io::Result<bool> {
    if call.kind < SPOIL_LINKS || COPY_PLACE < call.kind {
        lend(
            rt,
            call,
            &mut t.links,
            &mut t.numbers,
            &mut t.order,
            &mut t.answer,
            &mut t.fields,
            &t.heard,
            &mut t.buffer,
        )?;
        println!(rt; " {}", digest_of(call, t))?;
        return Ok(false);
    }
    let before = digest_of(call, t);
    spoil(call, t);
    let after = digest_of(call, t);
    println!(rt; " {after}")?;
    Ok(before != after)
}

// The next call of the file.
fn one(rt: &impl Print, file: &mut impl Read, sizes: Sizes, t: &mut Tables) -> io::Result<bool> {
    say::next_name(rt, file)?;
    let call = reading::next_call(file, sizes)?;
    words::entries(file, call.entries, &mut t.fields)?;
    reading::flips(file, call.changes, &mut t.heard)?;
    refill(call.kind, t);
    line(rt, call, t)
}

// All calls of the file, after their count. Comes back with how many changes of other hands the digest showed.
fn all(rt: &impl Print, file: &mut impl Read, sizes: Sizes, t: &mut Tables) -> io::Result<u32> {
    let count = words::word(file)?;
    let mut seen: u32 = 0;
    for _ in 0..count {
        let shown = one(rt, file, sizes, t)?;
        seen = seen.wrapping_add(shown as u32);
    }
    Ok(seen)
}

// Plays the file, and prints how many changes of other hands the digest showed.
pub fn play(rt: &impl Print, file: &mut impl Read) -> io::Result<()> {
    let sizes = reading::next_sizes(file)?;
    let mut t = Tables {
        links: [BYTE; LINKS],
        numbers: [BYTE; ENTRIES],
        order: [KEPT; ENTRIES],
        answer: [KEPT; asking::PLACES],
        fields: [KEPT; asking::FIELDS],
        heard: [0; LINKS],
        buffer: [(sizes.byte % 256) as u8; BUFFER],
    };
    let seen = all(rt, file, sizes, &mut t)?;
    println!(rt; "canaries {seen}")
}
