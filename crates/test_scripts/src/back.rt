// A script played line by line on tables of the host's own, which are then compared with the site's.
use crate::{refused, site};
use calls::Reply;
use mesh::Lent;
use script::lines;
use script::lines::Line;
use std::io;

// Counted for a line that is neither `radios` nor `up`: more than any refusal number.
const OTHER: u32 = 1000;

// Plays a line: the number it is refused by, or 0.
fn play_line(
    n: u32,
    line: &[u8],
    links: &mut [u8],
    numbers: &mut [u8],
    order: &mut [u16],
    answer: &mut [u16],
) -> u32 {
    match lines::parse(line) {
        Line::Radios(m) => calls::number(tables::clear::clear(m, links, numbers, order)),
        Line::Up(a, b) => {
            let change = links::link::link(true, n, a, b, links, numbers, order, answer);
            Reply::from(change).number
        }
        Line::Down(_, _) | Line::Bad => OTHER,
    }
}

// Plays the lines in turn, each with its line feed: the sum of what they are refused by.
fn play_lines(
    n: u32,
    text: &[u8],
    links: &mut [u8],
    numbers: &mut [u8],
    order: &mut [u16],
    answer: &mut [u16],
) -> u32 {
    let mut sum: u32 = 0;
    for line in text.split_inclusive(|x| *x == b'\n') {
        let number = play_line(n, line, links, numbers, order, answer);
        sum = sum.wrapping_add(number);
    }
    sum
}

// Plays the script on new tables, and prints what its lines were refused by, and whether links, numbers and order are the site's.
pub fn compare(rt: &HostRuntime, t: &Lent, text: &[u8]) -> io::Result<()> {
    let n = t.radios;
    let many = site::ENTRIES.min(n as usize);
    let mut links = [1u8; site::LINKS];
    let mut numbers = [1u8; site::ENTRIES];
    let mut order = [1u16; site::ENTRIES];
    let mut answer = [0u16; site::ENTRIES];
    let links = &mut links[..64 * many];
    let numbers = &mut numbers[..many];
    let order = &mut order[..many];
    let refused = play_lines(n, text, links, numbers, order, &mut answer);
    let linked = (&*links == t.links) as u32;
    let numbered = (&*numbers == t.numbers) as u32;
    let ordered = (&*order == t.order) as u32;
    println!(rt; "back {refused} {linked} {numbered} {ordered}")
}

// What must be found: another link, a radio more, a link twice.
fn compare_others(rt: &HostRuntime, links: &[u8], numbers: &[u8], order: &[u16]) -> io::Result<()> {
    let lent = Lent {
        radios: 3,
        links,
        numbers,
        order,
    };
    compare(rt, &lent, b"radios 3\nup 0 2\n")?;
    compare(rt, &lent, b"radios 4\nup 0 1\n")?;
    compare(rt, &lent, b"radios 3\nup 0 1\nup 0 1\n")
}

// The same, of a site of two linked radios and one more.
pub fn canary(rt: &HostRuntime) -> io::Result<()> {
    let mut links = [0u8; 192];
    let mut numbers = [0u8; 3];
    let mut order = [0u16; 3];
    refused::link_two(&mut links, &mut numbers, &mut order);
    compare_others(rt, &links, &numbers, &order)
}
