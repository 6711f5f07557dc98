// Both calls refused by each of their numbers, and pairs of questions in their order. Three radios, of which two are linked, take 16 bytes.
use crate::writing::answer;
use std::io;
use summerbugle::{sb_script_length, sb_script_write};

// Puts both calls, and prints the buffer, of which a refusal leaves every dot.
fn ask(
    rt: &HostRuntime,
    n: u32,
    links: &[u8],
    numbers: &[u8],
    order: &[u16],
    text: &mut [u8],
) -> io::Result<()> {
    answer(rt, "length", sb_script_length(n, links, numbers, order))?;
    answer(rt, "write", sb_script_write(n, links, numbers, order, text))?;
    rt.write_all(text)?;
    println!(rt)
}

// Three radios, of which 0 and 1 are linked.
pub fn link_two(links: &mut [u8], numbers: &mut [u8], order: &mut [u16]) {
    let mut answer = [0u16; 3];
    let _ = tables::clear::clear(3, links, numbers, order);
    let _ = links::link::link(true, 3, 0, 1, links, numbers, order, &mut answer);
}

// n and lengths.
fn ask_sizes(rt: &HostRuntime, links: &[u8], numbers: &[u8], order: &[u16]) -> io::Result<()> {
    let mut text = *b"....................";
    ask(rt, 0, links, numbers, order, &mut text)?;
    ask(rt, 513, links, numbers, order, &mut text)?;
    ask(rt, 2, links, numbers, order, &mut text)?;
    let two = [0u16; 2];
    ask(rt, 3, numbers, numbers, order, &mut text)?;
    ask(rt, 3, links, links, order, &mut text)?;
    let mut none = [0u8; 0];
    ask(rt, 3, links, numbers, &two, &mut none)
}

// Tables that are not sound, buffers that are too short, and one that is longer than the script.
fn ask_rooms(rt: &HostRuntime, links: &[u8], numbers: &[u8], order: &[u16]) -> io::Result<()> {
    let mut short = *b"...............";
    ask(rt, 3, links, numbers, order, &mut short)?;
    let ones = [1u8; 3];
    ask(rt, 3, links, &ones, order, &mut short)?;
    let mut text = *b"....................";
    ask(rt, 3, links, numbers, order, &mut text)
}

pub fn run(rt: &HostRuntime) -> io::Result<()> {
    let mut links = [0u8; 192];
    let mut numbers = [0u8; 3];
    let mut order = [0u16; 3];
    link_two(&mut links, &mut numbers, &mut order);
    ask_sizes(rt, &links, &numbers, &order)?;
    ask_rooms(rt, &links, &numbers, &order)
}
