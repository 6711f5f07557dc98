// Images written, read and walked at the sizes where their form changes; refusals, also where several questions get "no"; and every
// byte of a small image changed in turn. At the end stands how many comparisons differed that must. The expected lines are worked
// out by oracle/images.py.
#![tactic(auto)]

mod canaries;
mod changed;
mod changes;
mod full;
mod parts;
mod pattern;
mod reading;
mod sites;
mod sizes;
mod tally;
mod walking;
mod writing;

use changes::How;
use mesh::{Lent, Site};
use sites::Shape;
use std::io;
use test_parts::digest;

// Reads the image that the buffer begins with, of n radios, with each length and size and last as it is, then with the n around; writes
// it again from the tables read, and walks its blocks.
fn try_image(rt: &impl Print, n: u32, buffer: &[u8], exact: usize) -> io::Result<()> {
    let image = parts::front(buffer, exact);
    reading::try_cases(rt, n, buffer, exact)?;
    sizes::try_around(rt, n, image)?;
    reading::try_again(rt, n, image)?;
    walking::try_blocks(rt, image)
}

// Prints the site of these tables, with so many links, writes its image with each length of the buffer, and tries it.
fn try_tables(rt: &impl Print, links: u32, t: &Lent) -> io::Result<()> {
    let n = t.radios;
    println!(rt;
        "site {n} {links} {}",
        digest::site(t.links, t.numbers, t.order)
    )?;
    let exact = writing::try_writes(rt, t)?;
    try_image(rt, n, &writing::image_of(t), exact)
}

// Makes the site, on parts of the largest tables, and tries it.
fn site(rt: &impl Print, shape: Shape) -> io::Result<()> {
    let mut links = [0u8; reading::LINKS];
    let mut numbers = [0u8; reading::RADIOS];
    let mut order = [0u16; reading::RADIOS];
    let many = shape.radios as usize;
    sites::put_links(&mut links, shape.radios, shape.links);
    sites::put_numbers(&mut numbers, shape.members, shape.number);
    sites::put_order(&mut order, shape.spread, shape.members, many);
    let lent = parts::lent(
        shape.radios,
        parts::front(&links, Site::ROW_BYTES * many),
        parts::front(&numbers, many),
        parts::front(&order, many),
    );
    try_tables(rt, shape.links, &lent)
}

// The sizes where the order or the links take one block more; and 200 radios, which a site of 120 does not take.
fn try_sites(rt: &impl Print) -> io::Result<()> {
    site(rt, sites::alone(1))?;
    site(rt, sites::alone(252))?;
    site(rt, sites::path(252, 126))?;
    site(rt, sites::path(252, 127))?;
    site(rt, sites::path(253, 127))?;
    site(rt, sites::ring(253, 253, 2))?;
    site(rt, sites::alone(512))?;
    site(rt, sites::ring(512, 10240, 40))?;
    site(rt, sites::path(200, 199))
}

// A small site: a triangle 0 1 2, and 2 linked to 3, 3 to 4. The first byte of each row has all its links.
fn small_links() -> [u8; 320] {
    let mut links = [0u8; 320];
    links[0] = 6;
    links[64] = 5;
    links[128] = 11;
    links[192] = 20;
    links[256] = 8;
    links
}

// Its numbers and its order.
const NUMBERS: [u8; 5] = [2, 2, 2, 1, 1];

const ORDER: [u16; 5] = [4, 3, 2, 0, 1];

// Reads the small image with another n, and into tables of other lengths.
fn try_small_reads(rt: &impl Print, image: &[u8]) -> io::Result<()> {
    reading::try_read(rt, 5, 320, 5, 5, image)?;
    reading::try_read(rt, 4, 256, 4, 4, image)?;
    reading::try_read(rt, 6, 384, 6, 6, image)?;
    reading::try_read(rt, 5, 319, 5, 5, image)?;
    reading::try_read(rt, 5, 321, 5, 5, image)?;
    reading::try_read(rt, 5, 320, 4, 5, image)?;
    reading::try_read(rt, 5, 320, 6, 5, image)?;
    reading::try_read(rt, 5, 320, 5, 4, image)?;
    reading::try_read(rt, 5, 320, 5, 6, image)?;
    walking::try_blocks(rt, image)?;
    walking::try_blocks(rt, parts::front(image, 1535))
}

// Writes tables of the small site that are refused, the numbers with this last entry, the order with its own: unsound ones by 3, before 9
// is asked.
fn try_unsound(rt: &impl Print, links: &[u8], number: u8, last: u16) -> io::Result<()> {
    let numbers = [2, 2, 2, 1, number];
    let order = [4, 3, 2, 0, last];
    writing::try_refused(rt, &parts::lent(5, links, &numbers, &order))
}

// Writes tables of the small site that are refused by 2 before 3, and by 1 before 2.
fn try_short(rt: &impl Print, n: u32, links: &[u8]) -> io::Result<()> {
    writing::try_refused(rt, &parts::lent(n, links, &[2, 2, 2, 1], &ORDER))
}

// Writes tables of the small site that are refused.
fn try_small_writes(rt: &impl Print, links: &[u8]) -> io::Result<()> {
    try_unsound(rt, links, 2, 1)?;
    try_unsound(rt, links, 1, 0)?;
    try_unsound(rt, &[1u8; 320], 1, 1)?;
    try_short(rt, 5, links)?;
    try_short(rt, 0, links)
}

// Reads and walks an image that is refused, last with this n.
fn try_refused(rt: &impl Print, image: &[u8], last: u32) -> io::Result<()> {
    reading::try_read(rt, 5, 320, 5, 5, image)?;
    reading::try_read(rt, 4, 256, 4, 4, image)?;
    reading::try_read(rt, 5, 319, 5, 5, image)?;
    reading::try_read(rt, last, 319, 5, 5, image)?;
    walking::try_blocks(rt, image)
}

// The small image with a block that fails its check: 1, 2 and 9 are asked before 10, and 10 before 15 and 11.
fn try_small_refusals(rt: &impl Print, good: &[u8]) -> io::Result<()> {
    let image = changed::with(good, 600, 77, 600, 77, false);
    try_refused(rt, &image, 0)?;
    try_refused(rt, parts::front(&image, 1535), 513)
}

// Changes every byte of the small image in each way.
fn try_small_changes(rt: &impl Print, good: &[u8]) -> io::Result<()> {
    changes::try_change(rt, How::Added(1), good)?;
    changes::try_change(rt, How::Added(2), good)?;
    changes::try_change(rt, How::Added(254), good)?;
    changes::try_change(rt, How::Added(255), good)?;
    changes::try_change(rt, How::Flipped, good)?;
    changes::try_change(rt, How::Swapped, good)
}

// Tries the small site, of these links, and its image.
fn try_small_image(rt: &impl Print, links: &[u8], good: &[u8]) -> io::Result<()> {
    try_small_reads(rt, good)?;
    try_small_writes(rt, links)?;
    try_small_refusals(rt, good)?;
    try_small_changes(rt, good)?;
    sizes::try_small(rt, good)
}

// Tries the small site.
fn try_small(rt: &impl Print) -> io::Result<()> {
    let links = small_links();
    let buffer = writing::image_of(&parts::lent(5, &links, &NUMBERS, &ORDER));
    try_small_image(rt, &links, parts::front(&buffer, 1536))
}

fn main(rt: HostRuntime) -> io::Result<()> {
    try_sites(&rt)?;
    // A radio with 40 neighbours is taken, one with 41 is not.
    full::try_neighbours(&rt, 39)?;
    full::try_neighbours(&rt, 40)?;
    try_small(&rt)?;
    println!(rt; "canaries {}", canaries::count())
}
