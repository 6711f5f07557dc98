// Calls with another n or other lengths, and tables with one byte spoiled.
use test_model::expected::Call;
use test_model::model::Tables;
use test_parts::{random, words};

#[derive(Clone, Copy, PartialEq, Eq)]
pub enum Table {
    Links,
    Numbers,
    Order,
    Answer,
}

// What is wrong with a call.
#[derive(Clone, Copy)]
pub enum Trouble {
    // Bits of one entry of links, numbers or order are flipped: at which place, and which.
    Spoiled(Table, usize, u8),
    // The site has so many radios.
    Radios(u32),
    // A table is one entry short, or long. One place more in the answer table is no trouble.
    Short(Table),
    Long(Table),
}

// Of 112 calls 14 have a trouble, a different one each.
const CALLS: u32 = 112;

// One of the 14, by its number, at a site of n radios; x says where an entry is spoiled, and `flip` which of its bits.
fn trouble_of(kind: u32, n: u32, x: u64, flip: u8) -> Option<Trouble> {
    let entry = random::below(x, n) as usize;
    let byte = random::below(x, n % 1024 * 64) as usize;
    match kind {
        1 => Some(Trouble::Spoiled(Table::Links, byte, flip)),
        2 => Some(Trouble::Spoiled(Table::Numbers, entry, flip)),
        3 => Some(Trouble::Spoiled(Table::Order, entry, flip)),
        4 => Some(Trouble::Radios(0)),
        5 => Some(Trouble::Radios(513)),
        6 => Some(Trouble::Radios(n.wrapping_add(1))),
        7 => Some(Trouble::Short(Table::Links)),
        8 => Some(Trouble::Short(Table::Numbers)),
        9 => Some(Trouble::Short(Table::Order)),
        10 => Some(Trouble::Short(Table::Answer)),
        11 => Some(Trouble::Long(Table::Links)),
        12 => Some(Trouble::Long(Table::Numbers)),
        13 => Some(Trouble::Long(Table::Order)),
        14 => Some(Trouble::Long(Table::Answer)),
        _ => None,
    }
}

// The trouble of the next call, and the random number to go on from.
pub fn draw(n: u32, x: u64) -> (Option<Trouble>, u64) {
    let x1 = random::next(x);
    let x2 = random::next(x1);
    let x3 = random::next(x2);
    let flip = (random::below(x3, 255) % 255) as u8 + 1;
    (trouble_of(random::below(x1, CALLS), n, x2, flip), x3)
}

// n as the call is given it.
fn given_n(n: u32, trouble: Option<Trouble>) -> u32 {
    match trouble {
        Some(Trouble::Radios(other)) => other,
        _ => n,
    }
}

// The length of a table as the call is given it.
fn given_len(len: usize, of: Table, trouble: Option<Trouble>) -> usize {
    match trouble {
        Some(Trouble::Short(table)) if table == of => len.wrapping_sub(1),
        Some(Trouble::Long(table)) if table == of => len.wrapping_add(1),
        _ => len,
    }
}

// The call with its trouble.
pub fn troubled(call: Call, trouble: Option<Trouble>) -> Call {
    Call {
        n: given_n(call.n, trouble),
        links: given_len(call.links, Table::Links, trouble),
        numbers: given_len(call.numbers, Table::Numbers, trouble),
        order: given_len(call.order, Table::Order, trouble),
        answer: given_len(call.answer, Table::Answer, trouble),
        spoiled: matches!(trouble, Some(Trouble::Spoiled(..))),
        ..call
    }
}

// Spoils the entry, or mends it again.
pub fn spoil(trouble: Option<Trouble>, t: &mut Tables) {
    let Some(Trouble::Spoiled(table, place, flip)) = trouble else {
        return;
    };
    let bits = flip as u32;
    match table {
        Table::Links => words::flip8(&mut t.links, place, bits),
        Table::Numbers => words::flip8(&mut t.numbers, place, bits),
        Table::Order => words::flip16(&mut t.order, place, bits),
        Table::Answer => {}
    }
}
