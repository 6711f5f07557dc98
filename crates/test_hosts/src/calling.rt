// Each exported call, by the number that a file gives it, with its answer printed.
use crate::reading::Call;
use crate::{asking, say};
use mesh::Lent;
use std::io;
use summerbugle::{
    sb_ask_down, sb_ask_up, sb_backbone, sb_check, sb_clear, sb_commit_down, sb_commit_up, sb_core,
    sb_first, sb_hear, sb_image_block, sb_image_read, sb_image_write, sb_later_of, sb_link_batch,
    sb_link_down, sb_link_up, sb_linked, sb_mark_remove, sb_mark_return, sb_mark_set,
    sb_neighbours, sb_number, sb_sheet, sb_staircase,
};

const CLEAR: u32 = 0;

const CHECK: u32 = 1;

const LINK_UP: u32 = 2;

const LINK_DOWN: u32 = 3;

const NUMBER: u32 = 4;

const NEIGHBOURS: u32 = 5;

const LINKED: u32 = 6;

const FIRST: u32 = 7;

const CORE: u32 = 8;

const BACKBONE: u32 = 9;

const TREE: u32 = 10;

const IMAGE_WRITE: u32 = 11;

const IMAGE_READ: u32 = 12;

const IMAGE_BLOCK: u32 = 13;

const LATER_OF: u32 = 14;

const SHEET: u32 = 15;

const STAIRCASE: u32 = 16;

const ASK_UP: u32 = 17;

const ASK_DOWN: u32 = 18;

const COMMIT_UP: u32 = 19;

const COMMIT_DOWN: u32 = 20;

const MARK_SET: u32 = 28;

const MARK_REMOVE: u32 = 29;

const MARK_RETURN: u32 = 30;

const LINK_BATCH: u32 = 31;

const HEAR: u32 = 32;

// Whether the call writes the fields of nodes, from the first on: a tree or a proposal.
pub fn lists(kind: u32) -> bool {
    kind == TREE || kind == ASK_UP || kind == ASK_DOWN
}

// Whether the call writes an image or a page.
pub fn prints(kind: u32) -> bool {
    kind == IMAGE_WRITE || kind == SHEET
}

// A question about a site, which writes no table.
fn ask(rt: &impl Print, call: Call, t: &Lent) -> io::Result<()> {
    let n = t.radios;
    let links = t.links;
    let numbers = t.numbers;
    let order = t.order;
    let a = call.a;
    let b = call.b;
    match call.kind {
        CHECK => say::value(rt, sb_check(n, links, numbers, order)),
        NUMBER => say::value(rt, sb_number(n, a, links, numbers, order)),
        NEIGHBOURS => say::value(rt, sb_neighbours(n, a, links, numbers, order)),
        LINKED => say::value(rt, sb_linked(n, a, b, links, numbers, order)),
        FIRST => say::value(rt, sb_first(n, a, b, links, numbers, order)),
        LATER_OF => say::later(rt, sb_later_of(n, a, links, numbers, order)),
        _ => Ok(()),
    }
}

// A question about a site that lists radios or links. For a tree the list of nodes has `room` places; the fields of all places, lent or not,
// come back.
fn list(
    rt: &impl Print,
    call: Call,
    t: &Lent,
    answer: &mut [u16],
    fields: &mut [u16],
) -> io::Result<()> {
    let n = t.radios;
    let links = t.links;
    let numbers = t.numbers;
    let order = t.order;
    let a = call.a;
    let b = call.b;
    match call.kind {
        CORE => say::value(rt, sb_core(n, a, b, links, numbers, order, answer)),
        BACKBONE => say::value(rt, sb_backbone(n, links, numbers, order, answer)),
        TREE => say::value(rt, asking::ask(t, call.room, answer, fields)),
        STAIRCASE => say::value(rt, sb_staircase(n, links, numbers, order, fields)),
        ASK_UP => say::reply(rt, sb_ask_up(n, a, b, links, numbers, order, fields)),
        ASK_DOWN => say::reply(rt, sb_ask_down(n, a, b, links, numbers, order, fields)),
        _ => Ok(()),
    }
}

// A call that writes the buffer, and the one that tells of its blocks. The number of the next block has 64 bits: a has the higher ones.
fn store(rt: &impl Print, call: Call, t: &Lent, name: &[u8], buffer: &mut [u8]) -> io::Result<()> {
    let n = t.radios;
    let links = t.links;
    let numbers = t.numbers;
    let order = t.order;
    let next = call.a as usize * 4294967296 + call.b as usize;
    match call.kind {
        IMAGE_WRITE => say::value(rt, sb_image_write(n, links, numbers, order, buffer)),
        SHEET => say::value(rt, sb_sheet(n, links, numbers, order, buffer)),
        IMAGE_BLOCK => say::block(rt, sb_image_block(buffer, next)),
        MARK_SET => say::number(rt, sb_mark_set(n, links, numbers, order, name, buffer)),
        MARK_REMOVE => say::number(rt, sb_mark_remove(n, links, numbers, order, name, buffer)),
        _ => Ok(()),
    }
}

// The step that a word says: below 128 itself, 128 stands for -128, and what is above it for -1.
fn step_of(x: usize) -> i8 {
    match x {
        0..=127 => x as i8,
        128 => -128,
        _ => -1,
    }
}

// A call of one link: made, or committed as proposed, with the step that `room` says.
fn link(
    rt: &impl Print,
    call: Call,
    links: &mut [u8],
    numbers: &mut [u8],
    order: &mut [u16],
    answer: &mut [u16],
    list: &[u16],
) -> io::Result<()> {
    let n = call.n;
    let a = call.a;
    let b = call.b;
    let said = call.said;
    let step = step_of(call.room);
    match call.kind {
        LINK_UP => say::link(rt, said, sb_link_up(n, a, b, links, numbers, order, answer)),
        LINK_DOWN => say::link(
            rt,
            said,
            sb_link_down(n, a, b, links, numbers, order, answer),
        ),
        COMMIT_UP => say::reply(rt, sb_commit_up(n, a, b, step, links, numbers, order, list)),
        COMMIT_DOWN => say::reply(
            rt,
            sb_commit_down(n, a, b, step, links, numbers, order, list),
        ),
        _ => Ok(()),
    }
}

// A call that sets the site's tables, or takes many links. The name of a mark stands in the heard table.
fn set(
    rt: &impl Print,
    call: Call,
    links: &mut [u8],
    numbers: &mut [u8],
    order: &mut [u16],
    list: &[u16],
    heard: &[u8],
    buffer: &mut [u8],
) -> io::Result<()> {
    let n = call.n;
    match call.kind {
        CLEAR => say::cleared(rt, call.said, sb_clear(n, links, numbers, order)),
        LINK_BATCH => say::value(rt, sb_link_batch(n, links, numbers, order, list)),
        HEAR => say::value(rt, sb_hear(n, links, numbers, order, heard, buffer)),
        IMAGE_READ => say::number(rt, sb_image_read(n, links, numbers, order, buffer)),
        MARK_RETURN => say::number(rt, sb_mark_return(n, links, numbers, order, heard, buffer)),
        _ => Ok(()),
    }
}

// A call that only reads the site's tables. The name of a mark stands in the heard table.
fn look(
    rt: &impl Print,
    call: Call,
    t: &Lent,
    answer: &mut [u16],
    fields: &mut [u16],
    heard: &[u8],
    buffer: &mut [u8],
) -> io::Result<()> {
    ask(rt, call, t)?;
    list(rt, call, t, answer, fields)?;
    store(rt, call, t, heard, buffer)
}

// Makes the call on the lent parts: of these functions one has its kind.
pub fn put(
    rt: &impl Print,
    call: Call,
    links: &mut [u8],
    numbers: &mut [u8],
    order: &mut [u16],
    answer: &mut [u16],
    fields: &mut [u16],
    heard: &[u8],
    buffer: &mut [u8],
) -> io::Result<()> {
    let lent = Lent {
        radios: call.n,
        links,
        numbers,
        order,
    };
    look(rt, call, &lent, answer, fields, heard, buffer)?;
    link(rt, call, links, numbers, order, answer, fields)?;
    set(rt, call, links, numbers, order, fields, heard, buffer)
}
