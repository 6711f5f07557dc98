// Parts, bytes and tables, there for every number.
use mesh::Lent;
pub(crate) use test_parts::parts::{front, rest};

// Byte `at`; 0 past the end.
pub(crate) fn byte_at(s: &[u8], at: usize) -> u8 {
    s.get(at).copied().unwrap_or(0)
}

// The tables of so many radios, lent.
pub(crate) fn lent<'a>(
    radios: u32,
    links: &'a [u8],
    numbers: &'a [u8],
    order: &'a [u16],
) -> Lent<'a> {
    Lent {
        radios,
        links,
        numbers,
        order,
    }
}
