// What document 01 expects of a link call, worked out by peeling.
use super::model::{ANSWER, BEFORE, Model, NUMBERS};
use super::{cores, layout};

// The limits, as document 01 has them.
const RADIOS: u32 = 512;

const ROW_BYTES: usize = 64;

const NEIGHBOURS: u16 = 40;

// A link call, with the lengths of the four tables that it is lent, and whether one of them is spoiled.
#[derive(Clone, Copy)]
pub struct Call {
    pub up: bool,
    pub n: u32,
    pub a: u32,
    pub b: u32,
    pub links: usize,
    pub numbers: usize,
    pub order: usize,
    pub answer: usize,
    pub spoiled: bool,
}

// What the call owes.
#[derive(Clone, Copy, PartialEq, Eq)]
pub struct Owed {
    pub number: u32,
    pub step: i8,
    pub count: u32,
}

// A call with tables of document 01's lengths.
pub fn plain(n: u32, up: bool, a: u32, b: u32) -> Call {
    let many = n as usize;
    Call {
        up,
        n,
        a,
        b,
        links: many % 1024 * ROW_BYTES,
        numbers: many,
        order: many,
        answer: many,
        spoiled: false,
    }
}

// Questions 1 to 3: the number of the first that gets "no".
fn ask_tables(call: Call) -> Result<(), u32> {
    if call.n == 0 || RADIOS < call.n {
        return Err(1);
    }
    let n = call.n as usize;
    if call.links != ROW_BYTES * n || call.numbers != n || call.order != n || call.answer < n {
        return Err(2);
    }
    if call.spoiled {
        return Err(3);
    }
    Ok(())
}

// Question 7: whether v has room for a neighbour more.
fn has_room(model: &Model, n: u32, v: u32) -> bool {
    cores::degree(model, n as usize, v as usize) < NEIGHBOURS
}

// Questions 4 to 7.
fn ask_ends(call: Call, model: &Model) -> Result<(), u32> {
    if call.n <= call.a || call.n <= call.b {
        return Err(4);
    }
    if call.a == call.b {
        return Err(5);
    }
    if model.near(call.a as usize, call.b as usize) == call.up {
        return Err(6);
    }
    if !call.up {
        return Ok(());
    }
    if !has_room(model, call.n, call.a) || !has_room(model, call.n, call.b) {
        return Err(7);
    }
    Ok(())
}

// Questions 1 to 7.
fn ask(call: Call, model: &Model) -> Result<(), u32> {
    ask_tables(call)?;
    ask_ends(call, model)
}

// Lists v after the radios found, if its numbers differ; how many are found then.
fn list_one(model: &mut Model, v: usize, found: u32) -> u32 {
    if model.get(BEFORE, v) == model.get(NUMBERS, v) {
        return found;
    }
    model.put(ANSWER, found as usize, (v % 65536) as u16);
    found.wrapping_add(1)
}

// Lists the radios whose numbers differ, ascending, in front of the answer table; how many there are.
fn list_changed(model: &mut Model, n: usize) -> u32 {
    let mut found: u32 = 0;
    for v in 0..n {
        found = list_one(model, v, found);
    }
    found
}

fn step_of(up: bool, count: u32) -> i8 {
    if count == 0 {
        return 0;
    }
    if up {
        return 1;
    }
    -1
}

// The smaller number of the two ends.
fn level_of(model: &Model, a: u32, b: u32) -> u16 {
    let x = model.get(NUMBERS, a as usize);
    x.min(model.get(NUMBERS, b as usize))
}

// Carries an accepted call out on the expected site.
fn carry_out(call: Call, model: &mut Model) -> Owed {
    let n = call.n as usize;
    let k = level_of(model, call.a, call.b);
    let t = k.wrapping_sub(!call.up as u16);
    model.copy(n, NUMBERS, BEFORE);
    model.put_link(call.a as usize, call.b as usize, call.up);
    cores::peel(model, n);
    layout::relay(model, n, k, t);
    let count = list_changed(model, n);
    Owed {
        number: 0,
        step: step_of(call.up, count),
        count,
    }
}

// What the call owes; the expected site is as after it.
pub fn expect(call: Call, model: &mut Model) -> Owed {
    match ask(call, model) {
        Ok(()) => carry_out(call, model),
        Err(number) => Owed {
            number,
            step: 0,
            count: 0,
        },
    }
}
