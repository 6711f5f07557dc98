// The order after a link call, laid out as document 01's two paragraphs say. K is the smaller number of the two ends before the
// call. Going up, T is K, and the rest of level K is laid out before the changed radios; going down, T is K - 1, and the changed
// radios are laid out before the rest. Either way the radios laid out are the ones of level K whose number is T afterwards.
use super::cores;
use super::model::{BEFORE, FRESH, LEFT, Model, NUMBERS, ORDER, PARTS};

// Where a radio of the former order goes: it keeps its place in front, is laid out, follows what is laid out, or comes after.
#[derive(Clone, Copy)]
enum Part {
    Front,
    Waiting,
    Follows,
    Behind,
    Laid,
}

fn part_of(before: u16, after: u16, k: u16, t: u16) -> Part {
    if before < k {
        return Part::Front;
    }
    if k < before {
        return Part::Behind;
    }
    if after == t {
        return Part::Waiting;
    }
    Part::Follows
}

// Writes a radio's part.
fn put_part(model: &mut Model, v: usize, part: Part) {
    model.put(PARTS, v, part as u16);
}

// Whether a radio is of this part.
fn is_of(model: &Model, v: usize, part: Part) -> bool {
    model.get(PARTS, v) == part as u16
}

// Writes each radio's part.
fn put_parts(model: &mut Model, n: usize, k: u16, t: u16) {
    for v in 0..n {
        let before = model.get(BEFORE, v);
        let after = model.get(NUMBERS, v);
        put_part(model, v, part_of(before, after, k, t));
    }
}

// Whether u is a neighbour of v that waits or has a number above t.
fn is_counted(model: &Model, v: usize, u: usize, t: u16) -> bool {
    if !model.near(v, u) {
        return false;
    }
    if is_of(model, u, Part::Waiting) {
        return true;
    }
    t < model.get(NUMBERS, u)
}

// How many such neighbours v has.
fn count_row(model: &Model, n: usize, v: usize, t: u16) -> u16 {
    let mut sum: u16 = 0;
    for u in 0..n {
        sum = sum.wrapping_add(is_counted(model, v, u, t) as u16);
    }
    sum
}

// Writes that count for v, if it waits.
fn put_count(model: &mut Model, n: usize, v: usize, t: u16) {
    if !is_of(model, v, Part::Waiting) {
        return;
    }
    let sum = count_row(model, n, v, t);
    model.put(LEFT, v, sum);
}

// Writes that count for each radio that waits.
fn put_counts(model: &mut Model, n: usize, t: u16) {
    for v in 0..n {
        put_count(model, n, v, t);
    }
}

// Whether the radio at place i of the former order waits and has at most t neighbours counted.
fn fits(model: &Model, i: usize, t: u16) -> bool {
    let v = model.get(ORDER, i) as usize;
    if !is_of(model, v, Part::Waiting) {
        return false;
    }
    model.get(LEFT, v) <= t
}

// The first place of the former order whose radio fits.
fn first_fit(model: &Model, n: usize, t: u16) -> Option<usize> {
    (0..n).find(|i| fits(model, *i, t))
}

// Lays out the waiting radios from the place `at` on; the place after them.
fn lay_out(model: &mut Model, n: usize, t: u16, at: usize) -> usize {
    let mut place = at;
    for _ in 0..n {
        let Some(i) = first_fit(model, n, t) else {
            return place;
        };
        let v = model.get(ORDER, i);
        model.put(FRESH, place, v);
        put_part(model, v as usize, Part::Laid);
        cores::leave(model, n, v as usize);
        place = place.wrapping_add(1);
    }
    place
}

// Copies the radio at place i of the former order to the place `at`, if it is of the part; the place after it.
fn append_one(model: &mut Model, i: usize, part: Part, at: usize) -> usize {
    let v = model.get(ORDER, i);
    if !is_of(model, v as usize, part) {
        return at;
    }
    model.put(FRESH, at, v);
    at.wrapping_add(1)
}

// Copies the radios of one part, in their former order, from the place `at` on; the place after them.
fn append(model: &mut Model, n: usize, part: Part, at: usize) -> usize {
    let mut place = at;
    for i in 0..n {
        place = append_one(model, i, part, place);
    }
    place
}

// Makes the former order the new one. The links and numbers are the ones after the call.
pub fn relay(model: &mut Model, n: usize, k: u16, t: u16) {
    put_parts(model, n, k, t);
    put_counts(model, n, t);
    let front = append(model, n, Part::Front, 0);
    let laid = lay_out(model, n, t, front);
    let followed = append(model, n, Part::Follows, laid);
    append(model, n, Part::Behind, followed);
    model.copy(n, FRESH, ORDER);
}
