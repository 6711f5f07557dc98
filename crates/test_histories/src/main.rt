// Pseudo-random link histories, played on the engine and on the separate peeling of crate `test_model`: after every call the refusal
// number, the step, the count, every entry of the lent tables and the verdict on soundness are compared. Some calls are refused on
// purpose, some are put to spoiled tables. Prints for each history how many calls got which answer, how many differ, and how many
// of 11 expectations that are wrong on purpose are found. What is printed is worked out by oracle/histories.py.
#![tactic(auto)]

mod canaries;
mod engine;
mod pairs;
mod picking;
mod play;
mod trouble;

use picking::{Groups, Kind, Plan};
use play::Counts;
use std::io;

// Prints a line: a name, a number, then the counts.
fn line(rt: &impl Print, name: &str, n: u32, counts: &Counts) -> io::Result<()> {
    print!(rt; "{name} {n}")?;
    for x in counts.answers {
        print!(rt; " {x}")?;
    }
    println!(rt;
        " {} {} {} {}",
        counts.changed, counts.calls, counts.different, counts.canaries
    )
}

// Plays a history and prints its counts, which are added to the sums of all.
fn history(rt: &impl Print, name: &str, plan: Plan, sums: &mut Counts) -> io::Result<()> {
    let counts = play::play(plan);
    line(rt, name, plan.n, &counts)?;
    sums.add(&counts);
    Ok(())
}

// The three histories of n radios. Sparse: about as many links go down as up, and four neighbours are enough. Dense: many links among
// at most 48 radios, up to the 40 neighbours that a radio may have, and beyond. Clique: of m radios, so far as 40 neighbours allow,
// built and torn down: m times m pairs are asked for, twice.
fn site(
    rt: &impl Print,
    n: u32,
    calls: u32,
    m: u32,
    pairs: u32,
    sums: &mut Counts,
) -> io::Result<()> {
    let sparse = Plan {
        kind: Kind::Random { most: 4, ups: 10 },
        n,
        m: n,
        calls,
        seed: 88172645463325252,
    };
    history(rt, "sparse", sparse, sums)?;
    let dense = Plan {
        kind: Kind::Random { most: 48, ups: 14 },
        n,
        m: n.min(48),
        calls,
        seed: 362436069521288629,
    };
    history(rt, "dense", dense, sums)?;
    let clique = Plan {
        kind: Kind::Clique { pairs },
        n,
        m,
        calls: pairs.wrapping_mul(2),
        seed: 123456789123456789,
    };
    history(rt, "clique", clique, sums)
}

// The sites, with how many calls are made, of how many radios the clique is, and how many pairs are asked for.
fn sites(rt: &impl Print, sums: &mut Counts) -> io::Result<()> {
    site(rt, 1, 500, 1, 1, sums)?;
    site(rt, 2, 1000, 2, 4, sums)?;
    site(rt, 41, 1800, 41, 1681, sums)?;
    site(rt, 42, 1800, 42, 1764, sums)?;
    site(rt, 64, 1800, 42, 1764, sums)?;
    site(rt, 253, 800, 16, 256, sums)?;
    site(rt, 512, 800, 16, 256, sums)
}

// A history of n radios in groups, asked for n times the reach pairs, both ways, with 200 links from the first in the order to others after.
fn groups(
    rt: &impl Print,
    name: &str,
    n: u32,
    groups: Groups,
    sums: &mut Counts,
) -> io::Result<()> {
    let plan = Plan {
        kind: Kind::Groups(groups),
        n,
        m: n,
        calls: groups.pairs.wrapping_mul(2).wrapping_add(200),
        seed: 521288629362436069,
    };
    history(rt, name, plan, sums)
}

// Groups of so many radios, each linked with the next `reach`.
fn groups_of(size: u32, reach: u32, pairs: u32) -> Groups {
    Groups { size, reach, pairs }
}

// Groups: where the first in the order is an end, most radios of its level cannot change.
fn all_groups(rt: &impl Print, sums: &mut Counts) -> io::Result<()> {
    groups(rt, "pairs", 512, groups_of(2, 1, 512), sums)?;
    groups(rt, "paths", 126, groups_of(3, 1, 126), sums)?;
    groups(rt, "triangles", 126, groups_of(3, 2, 252), sums)?;
    groups(rt, "cliques", 128, groups_of(4, 3, 384), sums)
}

fn main(rt: HostRuntime) -> io::Result<()> {
    println!(rt;
        "history radios: accepted, refused by 1 to 7, changed radios, calls, differences, canaries"
    )?;
    let mut sums = Counts::none();
    sites(&rt, &mut sums)?;
    all_groups(&rt, &mut sums)?;
    line(&rt, "all", 0, &sums)
}
