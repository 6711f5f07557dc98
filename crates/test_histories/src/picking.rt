// The next call of a history: which link, which way, and now and then a call that is to be refused.
use super::pairs;
use test_model::model;
use test_model::model::Model;
use test_parts::random;

// The radios stand in groups of so many: each is linked with the next `reach` of its group, asked both ways, and then the first in the
// order with others; `pairs` is the number of radios times the reach.
#[derive(Clone, Copy)]
pub struct Groups {
    pub size: u32,
    pub reach: u32,
    pub pairs: u32,
}

// How the calls of a history are picked.
#[derive(Clone, Copy)]
pub enum Kind {
    // Pseudo-random pairs; a radio with `most` neighbours gets none more, on purpose; `ups` of 16 calls go up.
    Random { most: u16, ups: u32 },
    // All links between m radios go up, each asked both ways, and then down; `pairs` is m times m.
    Clique { pairs: u32 },
    Groups(Groups),
}

// A history on n radios, of which the first m are used.
#[derive(Clone, Copy)]
pub struct Plan {
    pub kind: Kind,
    pub n: u32,
    pub m: u32,
    pub calls: u32,
    pub seed: u64,
}

// Two radios, which way, and the random number to go on from.
#[derive(Clone, Copy)]
pub struct Picked {
    pub up: bool,
    pub a: u32,
    pub b: u32,
    pub x: u64,
}

// Whether a and u are two radios that are linked, or are not.
fn is_sought(model: &Model, a: u32, u: u32, linked: bool) -> bool {
    u != a && model.near(a as usize, u as usize) == linked
}

// The first radio from b on, round the m radios used, that is linked with a, or is not; b where there is none.
fn seek(model: &Model, m: u32, a: u32, b: u32, linked: bool) -> u32 {
    let mut u = b;
    for _ in 0..m {
        if is_sought(model, a, u, linked) {
            return u;
        }
        u = pairs::after(u, m);
    }
    b
}

// Call i of a clique of m radios that is built pair by pair and torn down in a scattered order.
fn pick_in_clique(m: u32, pairs: u32, i: u32, x: u64) -> Picked {
    let up = i < pairs;
    let j = if up { i } else { pairs::scattered(i, pairs) };
    Picked {
        up,
        a: pairs::first_of(j, m),
        b: pairs::second_of(j, m),
        x,
    }
}

// Pair i of groups: a radio and the one so much further on, where both are of one group; else the radio twice.
fn pair_of(groups: Groups, i: u32) -> (u32, u32) {
    let a = pairs::first_of(i, groups.reach) % 512;
    let b = a + 1 + pairs::second_of(i, groups.reach) % 512;
    let same = pairs::first_of(a, groups.size) == pairs::first_of(b, groups.size);
    (a, if same { b } else { a })
}

// The ends of call i of groups of n radios: their links, each asked both ways, and then links from the first in the order to others.
fn ends_in_groups(n: u32, groups: Groups, i: u32, model: &Model) -> (u32, u32) {
    if i < groups.pairs {
        return pair_of(groups, i);
    }
    let j = i - groups.pairs;
    if j < groups.pairs {
        let (a, b) = pair_of(groups, j);
        return (b, a);
    }
    let place = pairs::second_of((i % 65536) * 5, n);
    (
        model.get(model::ORDER, 0) as u32,
        model.get(model::ORDER, place as usize) as u32,
    )
}

// A pseudo-random pair that fits the way it goes, where there is one.
fn pick_pair(plan: Plan, most: u16, ups: u32, x: u64, model: &Model) -> Picked {
    let x1 = random::next(x);
    let x2 = random::next(x1);
    let x3 = random::next(x2);
    let a = random::below(x1, plan.m);
    let b = random::below(x2, plan.m);
    let few = test_model::degree(model, plan.n as usize, a as usize) < most;
    let up = random::below(x3, 16) < ups && few;
    Picked {
        up,
        a,
        b: seek(model, plan.m, a, b, !up),
        x: x3,
    }
}

// One call in sixteen is disturbed: an end at n or above, equal ends, the other way.
fn disturbed(n: u32, picked: Picked) -> Picked {
    let x = random::next(picked.x);
    let Picked { up, a, b, .. } = picked;
    match random::below(x, 48) {
        0 => Picked { up, a: n, b, x },
        1 => Picked { up, a, b: a, x },
        2 => Picked { up: !up, a, b, x },
        _ => Picked { up, a, b, x },
    }
}

// Call i of the history.
pub fn pick(plan: Plan, i: u32, x: u64, model: &Model) -> Picked {
    match plan.kind {
        Kind::Random { most, ups } => disturbed(plan.n, pick_pair(plan, most, ups, x, model)),
        Kind::Clique { pairs } => pick_in_clique(plan.m, pairs, i, x),
        Kind::Groups(groups) => {
            let (a, b) = ends_in_groups(plan.n, groups, i, model);
            Picked { up: true, a, b, x }
        }
    }
}
