// One site: pseudo-random links taken up and down, its script written, played and compared.
use crate::writing;
use mesh::Lent;
use std::io;
use test_parts::random;

// As many radios as a site may have, and the bytes of its links table.
pub const ENTRIES: usize = 512;

pub const LINKS: usize = 64 * ENTRIES;

// A site of n radios: so many links are asked for among the first m, from this random number on.
#[derive(Clone, Copy)]
struct Plan {
    n: u32,
    m: u32,
    calls: u32,
    seed: u64,
}

// Asks for the links, one of four to go down; some are refused.
fn wander(plan: Plan, links: &mut [u8], numbers: &mut [u8], order: &mut [u16], answer: &mut [u16]) {
    let mut x = plan.seed;
    for _ in 0..plan.calls {
        let y = random::next(x);
        let z = random::next(y);
        let up = y % 4 != 0;
        let a = random::below(y, plan.m);
        let b = random::below(z, plan.m);
        let _ = links::link::link(up, plan.n, a, b, links, numbers, order, answer);
        x = z;
    }
}

// The site, on tables that are cut to its lengths, and its script.
fn play(
    rt: &HostRuntime,
    plan: Plan,
    links: &mut [u8],
    numbers: &mut [u8],
    order: &mut [u16],
    answer: &mut [u16],
) -> io::Result<()> {
    let _ = tables::clear::clear(plan.n, links, numbers, order);
    wander(plan, links, numbers, order, answer);
    let lent = Lent {
        radios: plan.n,
        links,
        numbers,
        order,
    };
    writing::write_all(rt, &lent)
}

// Plays a site of n radios, whose links are among the first m.
pub fn run(rt: &HostRuntime, n: u32, m: u32, calls: u32, seed: u64) -> io::Result<()> {
    println!(rt; "site {n}")?;
    let many = ENTRIES.min(n as usize);
    let bytes = 64 * many;
    let mut links = [0u8; LINKS];
    let mut numbers = [0u8; ENTRIES];
    let mut order = [0u16; ENTRIES];
    let mut answer = [0u16; ENTRIES];
    play(
        rt,
        Plan { n, m, calls, seed },
        &mut links[..bytes],
        &mut numbers[..many],
        &mut order[..many],
        &mut answer[..many],
    )
}
