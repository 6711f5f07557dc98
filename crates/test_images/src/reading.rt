// Reading an image, with a line for each case.
use super::{parts, pattern, writing};
use image_reader::reader;
use mesh::{Lent, Site};
use std::io;
use test_parts::digest;

// The bytes of the largest links table.
pub(crate) const LINKS: usize = Site::ROW_BYTES * Site::RADIOS as usize;

// The entries of the other tables.
pub(crate) const RADIOS: usize = Site::RADIOS as usize;

// What a reading left: the refusal number, whether every table kept its content, whether the tables give the image again, byte for byte,
// and their digest.
#[derive(Clone, Copy)]
pub(crate) struct Outcome {
    pub(crate) number: u32,
    pub(crate) kept: bool,
    pub(crate) again: bool,
    pub(crate) digest: u64,
}

// What is seen of tables, which are the site's where the image was accepted.
fn seen(number: u32, t: &Lent, image: &[u8]) -> Outcome {
    Outcome {
        number,
        kept: pattern::are_kept(t),
        again: number == 0 && writing::is_again(t, image),
        digest: digest::site(t.links, t.numbers, t.order),
    }
}

// Reads into tables of the lengths given, at most the largest, which hold the pattern.
pub(crate) fn read(n: u32, rows: usize, radios: usize, entries: usize, image: &[u8]) -> Outcome {
    let i = rows.min(LINKS);
    let j = radios.min(RADIOS);
    let k = entries.min(RADIOS);
    let mut links = [pattern::BYTE; LINKS];
    let mut numbers = [pattern::BYTE; RADIOS];
    let mut order = [pattern::ENTRY; RADIOS];
    let number = calls::number(reader::read(
        n,
        &mut links[..i],
        &mut numbers[..j],
        &mut order[..k],
        image,
    ));
    let lent = parts::lent(n, &links[..i], &numbers[..j], &order[..k]);
    seen(number, &lent, image)
}

// Whether a refusal changed a table, or an accepted image does not come again.
pub(crate) fn is_broken(r: Outcome) -> bool {
    if r.number == 0 { !r.again } else { !r.kept }
}

// Reads, and prints the line: n, the lengths of the tables and of the image, the number, whether every table kept its content,
// and the tables' digest.
pub(crate) fn try_read(
    rt: &impl Print,
    n: u32,
    rows: usize,
    radios: usize,
    entries: usize,
    image: &[u8],
) -> io::Result<()> {
    let r = read(n, rows, radios, entries, image);
    print!(rt; "read {n} {rows} {radios} {entries} {}", image.len())?;
    println!(rt; " {} {} {}", r.number, r.kept as u32, r.digest)
}

// Tries every case of a site of n radios whose image is the first `exact` bytes of the buffer, zeros after it: four lengths of the image,
// four sizes of the site, and last the image as it is.
pub(crate) fn try_cases(rt: &impl Print, n: u32, buffer: &[u8], exact: usize) -> io::Result<()> {
    let many = n as usize % 1024;
    let cases = [
        (n, exact.wrapping_sub(1)),
        (n, exact.wrapping_add(1)),
        (n, 0),
        (n, exact.wrapping_add(512)),
        (n.wrapping_sub(1), exact),
        (n.wrapping_add(1), exact),
        (0, exact),
        (513, exact),
        (n, exact),
    ];
    for (size, length) in cases {
        let image = parts::front(buffer, length);
        try_read(rt, size, Site::ROW_BYTES * many, many, many, image)?;
    }
    Ok(())
}

// Prints whether the tables that are read give the image again, byte for byte.
pub(crate) fn try_again(rt: &impl Print, n: u32, image: &[u8]) -> io::Result<()> {
    let many = n as usize % 1024;
    let r = read(n, Site::ROW_BYTES * many, many, many, image);
    println!(rt; "again {}", r.again as u32)
}
