// The calls that a file lists, on a site that its links make.
ghost use Rattle.std.specs.Prelude.{◌≤◌};
ghost use Rattle.mesh.specs.Limits.{max_radios};

use crate::compare::{KEPT, Tally};
use mesh::{Lent, Node, Site};
use queries::{backbone, cores};
use std::io;
use std::io::Read;
use test_parts::words;
use tree::levels;

// Two places more than the largest tree needs.
const PLACES: usize = 515;

// The longest table that is lent for entries: two for each of these places.
const ANSWER: usize = 2 * PLACES;

// The bytes of a site's largest links table.
const LINKS_BYTES: usize = Site::ROW_BYTES * Site::RADIOS as usize;

// What a place for a node holds before a call.
const BLANK: Node = Node {
    name: KEPT,
    level: KEPT,
    parent: KEPT,
};

// The calls, by the numbers that a file gives them; another number is a core's.
const TREE: u16 = 1;

const BACKBONE: u16 = 2;

const STAIRCASE: u16 = 4;

// A shell tree, with as many places for nodes as the file says.
fn tree(file: &mut impl Read, t: &Lent, answer: &mut [u16], tally: &mut Tally) -> io::Result<()> {
    let mut nodes = [BLANK; PLACES];
    let room = PLACES.min(words::half(file)? as usize);
    tally.reply(file, levels::shell_tree(t, &mut nodes[..room], answer))?;
    tally.entries(file, &nodes.map(|node| node.name))?;
    tally.entries(file, &nodes.map(|node| node.level))?;
    tally.entries(file, &nodes.map(|node| node.parent))?;
    tally.entries(file, answer)
}

// A backbone.
fn backbone(
    file: &mut impl Read,
    t: &Lent,
    answer: &mut [u16],
    tally: &mut Tally,
) -> io::Result<()> {
    tally.reply(file, backbone::backbone(t, answer))?;
    tally.entries(file, answer)
}

// A staircase tree.
fn staircase(
    file: &mut impl Read,
    t: &Lent,
    table: &mut [u16],
    tally: &mut Tally,
) -> io::Result<()> {
    tally.reply(file, staircase::staircase(t, table))?;
    tally.entries(file, table)
}

// A connected core, of the radio and the level that the file names.
fn core(file: &mut impl Read, t: &Lent, answer: &mut [u16], tally: &mut Tally) -> io::Result<()> {
    let v = words::half(file)? as u32;
    let k = words::half(file)? as u32;
    tally.reply(file, cores::core(t, v, k, answer))?;
    tally.entries(file, answer)
}

// One call on the tables: its kind, n and the length of its answer table come first.
fn call(
    file: &mut impl Read,
    links: &[u8],
    numbers: &[u8],
    order: &[u16],
    answer: &mut [u16],
    tally: &mut Tally,
) -> io::Result<()> {
    let kind = words::half(file)?;
    let lent = Lent {
        radios: words::half(file)? as u32,
        links,
        numbers,
        order,
    };
    let w = answer.len().min(words::half(file)? as usize);
    answer.fill(KEPT);
    let front = &mut answer[..w];
    match kind {
        TREE => tree(file, &lent, front, tally),
        BACKBONE => backbone(file, &lent, front, tally),
        STAIRCASE => staircase(file, &lent, front, tally),
        _ => core(file, &lent, front, tally),
    }
}

// As many calls as the file says.
fn calls(
    file: &mut impl Read,
    links: &[u8],
    numbers: &[u8],
    order: &[u16],
    answer: &mut [u16],
    tally: &mut Tally,
) -> io::Result<()> {
    let count = words::half(file)?;
    for _ in 0..count {
        call(file, links, numbers, order, answer, tally)?;
    }
    Ok(())
}

// Clears the site and takes up each link that the file lists, after their count.
fn link_all(
    file: &mut impl Read,
    n: u32,
    links: &mut [u8],
    numbers: &mut [u8],
    order: &mut [u16],
    answer: &mut [u16],
) -> io::Result<()> {
    let _ = tables::clear::clear(n, links, numbers, order);
    let count = words::half(file)?;
    for _ in 0..count {
        let a = words::half(file)? as u32;
        let b = words::half(file)? as u32;
        let _ = links::link::link(true, n, a, b, links, numbers, order, answer);
    }
    Ok(())
}

// The site's links, the calls on it, and the calls after its numbers are spoiled.
fn play(
    file: &mut impl Read,
    n: u32,
    links: &mut [u8],
    numbers: &mut [u8],
    order: &mut [u16],
    answer: &mut [u16],
) -> io::Result<Tally> {
    let mut tally = Tally::none();
    link_all(file, n, links, numbers, order, answer)?;
    calls(file, links, numbers, order, answer, &mut tally)?;
    numbers.fill(255);
    calls(file, links, numbers, order, answer, &mut tally)?;
    Ok(tally)
}

// The site of n radios, whose tables are parts of the largest ones.
fn cut(file: &mut impl Read, n: u32) -> io::Result<Tally>
    requires { n ≤ max_radios }
{
    let many = n as usize;
    let bytes = Site::ROW_BYTES * many;
    let mut links = [0u8; LINKS_BYTES];
    let mut numbers = [0u8; Site::RADIOS as usize];
    let mut order = [0u16; Site::RADIOS as usize];
    let mut answer = [0u16; ANSWER];
    play(
        file,
        n,
        &mut links[..bytes],
        &mut numbers[..many],
        &mut order[..many],
        &mut answer,
    )
}

// The site that the file has. One that is too large is wrong.
pub fn site(file: &mut impl Read) -> io::Result<Tally> {
    let n = words::half(file)? as u32;
    if n > Site::RADIOS {
        return Ok(Tally {
            wrong: 1,
            ..Tally::none()
        });
    }
    cut(file, n)
}
