// Comparisons that must differ, made by the functions that all lines go by: where one is switched off, fewer are counted.
use super::pattern::{BYTE, ENTRY};
use super::reading::Outcome;
use super::{parts, pattern, reading, sizes, writing};
use test_parts::digest;

// What a refusal by 10 leaves in three tables whose second entries are these.
fn left(byte: u8, number: u8, radio: u16) -> Outcome {
    let links = [BYTE, byte];
    let numbers = [BYTE, number];
    let order = [ENTRY, radio];
    Outcome {
        number: 10,
        kept: pattern::are_kept(&parts::lent(2, &links, &numbers, &order)),
        again: false,
        digest: digest::site(&links, &numbers, &order),
    }
}

// How many find that a table is not as it was: the comparison for kept tables, and the digest.
fn found(r: Outcome) -> u32 {
    let kept = left(BYTE, BYTE, ENTRY);
    (!r.kept as u32).wrapping_add((r.digest != kept.digest) as u32)
}

// Those, one table after another exchanged, then two images that differ, a refusal that changed a table, and an image alone that got
// another number.
pub(crate) fn count() -> u32 {
    let exchanged = left(1, BYTE, ENTRY);
    let other = [BYTE, 1];
    let differ = !writing::is_same(&[BYTE, BYTE], &other);
    let broken = reading::is_broken(exchanged);
    let alone = sizes::is_broken(0, &other, 9, false);
    let seen = found(exchanged)
        .wrapping_add(found(left(BYTE, 1, ENTRY)))
        .wrapping_add(found(left(BYTE, BYTE, 1)));
    seen.wrapping_add(differ as u32)
        .wrapping_add(broken as u32)
        .wrapping_add(alone as u32)
}
