// Lent tables compared with the expected ones, every entry.
use super::model::{ANSWER, Links, Model, NUMBERS, ORDER, SIDE, Tables};
use super::own_check;

// Whether the entries are the ones of the section, and the entries past the site's too.
fn entries<T: Copy + Into<u16>>(s: &[T], model: &Model, section: usize) -> bool {
    for (i, x) in s.iter().enumerate() {
        let entry: u16 = (*x).into();
        if entry != model.get(section, i) {
            return false;
        }
    }
    true
}

// Whether row a of the links table has the expected bits, and no other.
fn row(links: &Links, model: &Model, a: usize) -> bool {
    for b in 0..SIDE {
        if own_check::bit(links, a, b) != model.near(a, b) {
            return false;
        }
    }
    true
}

// Whether the first n rows of the links table have the expected bits, and the row past them none.
fn links(s: &Links, model: &Model, n: usize) -> bool {
    for a in 0..n {
        if !row(s, model, a) {
            return false;
        }
    }
    row(s, model, n)
}

// Whether the tables of n radios are the expected ones.
pub fn tables(t: &Tables, model: &Model, n: usize) -> bool {
    entries(&t.numbers, model, NUMBERS)
        && entries(&t.order, model, ORDER)
        && entries(&t.answer, model, ANSWER)
        && links(&t.links, model, n)
}
