// The pattern that tables and buffers are filled with before a call, so that a byte that was written shows.
use mesh::Lent;

pub(crate) const BYTE: u8 = 165;

pub(crate) const ENTRY: u16 = 42405;

// Whether every byte is the pattern's.
pub(crate) fn is_kept(s: &[u8]) -> bool {
    s.iter().all(|x| *x == BYTE)
}

// Whether every entry of the tables is the pattern's.
pub(crate) fn are_kept(t: &Lent) -> bool {
    is_kept(t.links) && is_kept(t.numbers) && t.order.iter().all(|x| *x == ENTRY)
}
