// Images read with many n into tables of n radios, and asked alone: one n is the image's own, all others are not.
use super::tally::Tally;
use super::{changed, parts, reading};
use image_reader::reader;
use mesh::Site;
use std::io;
use test_parts::digest;

// Whether what was read is broken, or the image alone got another number.
pub(crate) fn is_broken(n: u32, image: &[u8], number: u32, broken: bool) -> bool {
    calls::number(reader::ask(n, image)) != number || broken
}

// Counts one more reading, into tables of n radios.
fn try_size(t: &mut Tally, n: u32, image: &[u8]) {
    let many = n as usize;
    let r = reading::read(n, Site::ROW_BYTES * many, many, many, image);
    let broken = is_broken(n, image, r.number, reading::is_broken(r));
    let digest = digest::mixed(t.digest, r.number as u64);
    t.count(15, r.number, broken, digest);
}

// Reads the image with every n from the first to below the end, and prints the line: the first n, the end, its length, the n that it says, how
// often 0, 15, 11 and any other number came, how often a comparison differed, and a digest of the numbers.
fn try_range(rt: &impl Print, first: u32, end: u32, image: &[u8]) -> io::Result<()> {
    let says = u16::from_le_bytes([parts::byte_at(image, 4), parts::byte_at(image, 5)]);
    let mut t = Tally::none();
    for n in first..end {
        try_size(&mut t, n, image);
    }
    println!(rt; "sizes {first} {end} {} {says} {t}", image.len())
}

// The sizes below n that are tried; few of a long image.
fn below(image: &[u8]) -> u32 {
    if image.len() <= 4096 { 100 } else { 3 }
}

// Tries an image of n radios with the sizes around.
pub(crate) fn try_around(rt: &impl Print, n: u32, image: &[u8]) -> io::Result<()> {
    try_range(rt, n.saturating_sub(below(image)), n.wrapping_add(4), image)
}

// Tries the image with a header that says this n, its check mended.
fn try_header(rt: &impl Print, good: &[u8], says: u16) -> io::Result<()> {
    let [low, high] = says.to_le_bytes();
    let image = changed::with(good, 4, low, 5, high, true);
    try_range(rt, 0, 9, &image)
}

// Tries the image with the first and the last entry of its order exchanged: no k-order.
fn try_order(rt: &impl Print, good: &[u8]) -> io::Result<()> {
    let first = parts::byte_at(good, 516);
    let last = parts::byte_at(good, 524);
    let image = changed::with(good, 516, last, 524, first, true);
    try_range(rt, 0, 9, &image)
}

// Tries an image of 5 radios and 3 blocks as it is, with every size; with headers that say another n; with an order that is no k-order.
pub(crate) fn try_small(rt: &impl Print, good: &[u8]) -> io::Result<()> {
    try_range(rt, 0, 514, good)?;
    try_header(rt, good, 0)?;
    try_header(rt, good, 4)?;
    try_header(rt, good, 6)?;
    try_header(rt, good, 513)?;
    try_header(rt, good, 65535)?;
    try_order(rt, good)
}
