// Core numbers by peeling, on the expected site. Nothing of the engine is used.
use super::model::{LEFT, Model, NUMBERS};

// Stands for a radio that no level has thrown out yet.
const STILL_IN: u16 = 255;

// One more than the most neighbours: at this level every radio is thrown out.
const LAST_LEVEL: u16 = 41;

// How many neighbours v has among n radios.
pub fn degree(model: &Model, n: usize, v: usize) -> u16 {
    let mut sum: u16 = 0;
    for u in 0..n {
        sum = sum.wrapping_add(model.near(v, u) as u16);
    }
    sum
}

// Writes how many neighbours each radio has.
fn put_degrees(model: &mut Model, n: usize) {
    for v in 0..n {
        let sum = degree(model, n, v);
        model.put(LEFT, v, sum);
    }
}

// Takes v out of the count of u, if they are linked.
fn leave_one(model: &mut Model, v: usize, u: usize) {
    if !model.near(v, u) {
        return;
    }
    let x = model.get(LEFT, u);
    model.put(LEFT, u, x.wrapping_sub(1));
}

// Takes v out of its neighbours' counts.
pub fn leave(model: &mut Model, n: usize, v: usize) {
    for u in 0..n {
        leave_one(model, v, u);
    }
}

// Throws v out if it has fewer than k neighbours left: its number is one less than k. Whether it went.
fn throw_one(model: &mut Model, n: usize, k: u16, v: usize) -> bool {
    if model.get(NUMBERS, v) != STILL_IN {
        return false;
    }
    if k <= model.get(LEFT, v) {
        return false;
    }
    model.put(NUMBERS, v, k.wrapping_sub(1));
    leave(model, n, v);
    true
}

// Throws radios out at level k, once through: how many.
fn throw_out(model: &mut Model, n: usize, k: u16) -> u16 {
    let mut gone: u16 = 0;
    for v in 0..n {
        let went = throw_one(model, n, k, v);
        gone = gone.wrapping_add(went as u16);
    }
    gone
}

// Throws radios out at level k until each one left has k neighbours left. Each time through one goes, so n times are enough.
fn peel_level(model: &mut Model, n: usize, k: u16) {
    for _ in 0..n {
        if throw_out(model, n, k) == 0 {
            return;
        }
    }
}

// Writes the core number of each of n radios.
pub fn peel(model: &mut Model, n: usize) {
    put_degrees(model, n);
    model.fill(n, NUMBERS, STILL_IN);
    for k in 1..=LAST_LEVEL {
        peel_level(model, n, k);
    }
}
