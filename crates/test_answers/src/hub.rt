// A hub: a site is cleared, the calls of the file are made, and what it then holds and answers is put into digests.
ghost use Rattle.std.specs.Prelude.{◌≤◌};
ghost use Rattle.mesh.specs.Limits.{max_radios};

use crate::compare::KEPT;
use calls::{Refusal, Reply, Value};
use mesh::{Lent, Node, Site};
use queries::backbone;
use std::io;
use std::io::Read;
use test_parts::{digest, words};
use tree::levels;

// The bytes of a site's largest links table.
const LINKS_BYTES: usize = Site::ROW_BYTES * Site::RADIOS as usize;

// How many nodes the largest shell tree has.
const NODES: usize = Site::RADIOS as usize + 1;

// What a place for a node holds before a call.
const BLANK: Node = Node {
    name: KEPT,
    level: KEPT,
    parent: KEPT,
};

// How many calls were made, the sum of their refusal numbers, and the digests.
#[derive(Clone, Copy)]
pub struct Hub {
    pub calls: u64,
    pub refusals: u64,
    pub links: u64,
    pub numbers: u64,
    pub tree: u64,
    pub backbone: u64,
    pub staircase: u64,
    pub order: u64,
}

// A call's number and value.
fn reply(answer: Result<u32, Refusal>) -> u64 {
    let r = Value::from(answer);
    digest::mixed(digest::mixed(0, r.number as u64), r.value as u64)
}

// The shell tree: its nodes, and each radio's node name.
fn tree(t: &Lent) -> u64 {
    let mut nodes = [BLANK; NODES];
    let mut answer = [KEPT; NODES];
    let d = reply(levels::shell_tree(t, &mut nodes, &mut answer));
    let e = digest::of(d, &nodes.map(|node| node.name));
    let f = digest::of(e, &nodes.map(|node| node.level));
    let g = digest::of(f, &nodes.map(|node| node.parent));
    digest::of(g, &answer)
}

// The backbone.
fn backbone(t: &Lent) -> u64 {
    let mut answer = [KEPT; NODES];
    let d = reply(backbone::backbone(t, &mut answer));
    digest::of(d, &answer)
}

// The staircase tree.
fn staircase(t: &Lent) -> u64 {
    let mut table = [KEPT; 2 * NODES];
    let d = reply(staircase::staircase(t, &mut table));
    digest::of(d, &table)
}

// What a hub holds and answers.
fn held(t: &Lent, calls: u64, refusals: u64) -> Hub {
    Hub {
        calls,
        refusals,
        links: digest::of(0, t.links),
        numbers: digest::of(0, t.numbers),
        tree: tree(t),
        backbone: backbone(t),
        staircase: staircase(t),
        order: digest::of(0, t.order),
    }
}

// Makes as many link calls as `count` says: 1 or 0 for up or down, and two radios. Comes back with the sum of their refusal numbers.
fn play(
    file: &mut impl Read,
    count: u16,
    n: u32,
    links: &mut [u8],
    numbers: &mut [u8],
    order: &mut [u16],
    answer: &mut [u16],
) -> io::Result<u64> {
    let mut refusals: u64 = 0;
    for _ in 0..count {
        let up = words::half(file)? == 1;
        let a = words::half(file)? as u32;
        let b = words::half(file)? as u32;
        let change = links::link::link(up, n, a, b, links, numbers, order, answer);
        refusals = refusals.wrapping_add(Reply::from(change).number as u64);
    }
    Ok(refusals)
}

// Clears the site, plays the calls, and looks at what is held.
fn taken(
    file: &mut impl Read,
    n: u32,
    links: &mut [u8],
    numbers: &mut [u8],
    order: &mut [u16],
    answer: &mut [u16],
) -> io::Result<Hub> {
    let count = words::half(file)?;
    let _ = tables::clear::clear(n, links, numbers, order);
    let refusals = play(file, count, n, links, numbers, order, answer)?;
    let lent = Lent {
        radios: n,
        links,
        numbers,
        order,
    };
    Ok(held(&lent, count as u64, refusals))
}

// The site of n radios, whose tables are parts of the largest ones.
fn cut(file: &mut impl Read, n: u32) -> io::Result<Hub>
    requires { n ≤ max_radios }
{
    let many = n as usize;
    let bytes = Site::ROW_BYTES * many;
    let mut links = [0u8; LINKS_BYTES];
    let mut numbers = [0u8; Site::RADIOS as usize];
    let mut order = [0u16; Site::RADIOS as usize];
    let mut answer = [0u16; Site::RADIOS as usize];
    taken(
        file,
        n,
        &mut links[..bytes],
        &mut numbers[..many],
        &mut order[..many],
        &mut answer,
    )
}

// The next hub of the file; the largest site where n is too large.
pub fn next(file: &mut impl Read, n: u32) -> io::Result<Hub> {
    cut(file, n.min(Site::RADIOS))
}
