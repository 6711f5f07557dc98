// One site: cleared, linked, asked, and written as an image.
use super::{pictures, say};
use calls::{Reply, Value};
use mesh::Lent;
use std::io;

// The shapes of a site: no link, a line of all radios, all linked.
#[derive(Clone, Copy)]
pub enum Shape {
    Alone,
    Line,
    All,
}

impl Shape {
    fn name(self) -> &'static str {
        match self {
            Shape::Alone => "none",
            Shape::Line => "line",
            Shape::All => "all",
        }
    }

    // The last radio, and one more, to which radio a is linked.
    fn end_of(self, n: u32, a: u32) -> u32 {
        match self {
            Shape::Alone => 0,
            Shape::Line => n.min(a.saturating_add(2)),
            Shape::All => n,
        }
    }
}

// One more radio than a site may have, and the bytes of its links table.
const ENTRIES: usize = 513;

const LINKS: usize = 64 * ENTRIES;

// What entries hold that are not to be written.
const RADIO: u16 = 7777;

// Takes up the links of radio a to the radios from b on, below `end`.
fn link_row(
    n: u32,
    a: u32,
    b: u32,
    end: u32,
    links: &mut [u8],
    numbers: &mut [u8],
    order: &mut [u16],
    answer: &mut [u16],
) {
    for v in b..end {
        let _ = links::link::link(true, n, a, v, links, numbers, order, answer);
    }
}

// Takes up all links of the shape.
fn link_all(
    shape: Shape,
    n: u32,
    links: &mut [u8],
    numbers: &mut [u8],
    order: &mut [u16],
    answer: &mut [u16],
) {
    for a in 0..n {
        let end = shape.end_of(n, a);
        link_row(n, a, a + 1, end, links, numbers, order, answer);
    }
}

// The answers of a site whose tables have their lengths: of the last link its number, whether the step is +1, and the count.
fn link_up_all(
    rt: &impl Print,
    shape: Shape,
    n: u32,
    links: &mut [u8],
    numbers: &mut [u8],
    order: &mut [u16],
    answer: &mut [u16],
) -> io::Result<()> {
    let cleared = calls::number(tables::clear::clear(n, links, numbers, order));
    println!(rt; "clear {cleared}")?;
    link_all(shape, n, links, numbers, order, answer);
    let last = n.saturating_sub(1);
    let reply = Reply::from(links::link::link(true, n, 0, last, links, numbers, order, answer));
    let up = (reply.step == 1) as u32;
    println!(rt; "up {} {up} {}", reply.number, reply.count)
}

// Prints the verdict, the tables and the image.
fn say_site(rt: &impl Print, t: &Lent, answer: &[u16]) -> io::Result<()> {
    let verdict = Value::from(soundness::check(t));
    println!(rt; "check {} {}", verdict.number, verdict.value)?;
    say::entries(rt, "numbers", t.numbers)?;
    say::entries(rt, "order", t.order)?;
    say::entries(rt, "answer", answer)?;
    pictures::write_all(rt, t)
}

// The site, on tables that are cut to its lengths.
fn play(
    rt: &impl Print,
    shape: Shape,
    n: u32,
    links: &mut [u8],
    numbers: &mut [u8],
    order: &mut [u16],
    answer: &mut [u16],
) -> io::Result<()> {
    link_up_all(rt, shape, n, links, numbers, order, answer)?;
    let lent = Lent {
        radios: n,
        links,
        numbers,
        order,
    };
    say_site(rt, &lent, answer)
}

// Plays a site of n radios and prints it.
pub fn run(rt: &impl Print, shape: Shape, n: u32) -> io::Result<()> {
    println!(rt; "{} {n}", shape.name())?;
    let many = ENTRIES.min(n as usize);
    let bytes = 64 * many;
    let mut links = [0u8; LINKS];
    let mut numbers = [0u8; ENTRIES];
    let mut order = [0u16; ENTRIES];
    let mut answer = [RADIO; ENTRIES];
    play(
        rt,
        shape,
        n,
        &mut links[..bytes],
        &mut numbers[..many],
        &mut order[..many],
        &mut answer[..many],
    )
}
