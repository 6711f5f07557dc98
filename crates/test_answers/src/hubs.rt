// Two hubs, one mesh (document 02, W-214): data/hubs has, case by case, the link calls of two hubs, the same calls in two arrangements. Both
// play theirs, and what they hold and answer is compared: links, numbers, shell tree, backbone, staircase tree. Orders may differ, and are
// reported. Three lines for each case: of each hub how many calls it was given, the sum of their refusal numbers, and a digest of each
// table and each answer, all worked out by a separate program (oracle/hubs.py); then which of them are equal. Of `one_more` a hub has a
// call more, of `refused` one refuses a call: there the comparison must find every difference.
use crate::hub;
use crate::hub::Hub;
use std::io;
use std::io::Read;
use test_parts::say::Name;
use test_parts::{say, words};

// What is held, at the end of a line.
fn say_held(rt: &impl Print, h: Hub) -> io::Result<()> {
    print!(rt; " links {} numbers {} tree {}", h.links, h.numbers, h.tree)?;
    println!(rt;
        " backbone {} staircase {} order {}",
        h.backbone, h.staircase, h.order
    )
}

// A hub's line.
fn line(rt: &impl Print, name: &Name, h: Hub) -> io::Result<()> {
    say::name(rt, name)?;
    print!(rt; " calls {} refusals {}", h.calls, h.refusals)?;
    say_held(rt, h)
}

// 1 when they are equal, 0 when not.
fn equal(x: u64, y: u64) -> u64 {
    (x == y) as u64
}

// Which counts and digests of two hubs are equal.
fn equals(one: Hub, other: Hub) -> Hub {
    Hub {
        calls: equal(one.calls, other.calls),
        refusals: equal(one.refusals, other.refusals),
        links: equal(one.links, other.links),
        numbers: equal(one.numbers, other.numbers),
        tree: equal(one.tree, other.tree),
        backbone: equal(one.backbone, other.backbone),
        staircase: equal(one.staircase, other.staircase),
        order: equal(one.order, other.order),
    }
}

// Which digests of two hubs are equal.
fn compared(rt: &impl Print, name: &Name, one: Hub, other: Hub) -> io::Result<()> {
    say::name(rt, name)?;
    print!(rt; " equal:")?;
    say_held(rt, equals(one, other))
}

// The next two hubs, and their lines.
fn case(rt: &impl Print, file: &mut impl Read) -> io::Result<()> {
    let name = say::read_name(file)?;
    let n = words::half(file)? as u32;
    let one = hub::next(file, n)?;
    let other = hub::next(file, n)?;
    line(rt, &name, one)?;
    line(rt, &name, other)?;
    compared(rt, &name, one, other)
}

// All cases of the file, after their count.
pub fn play(rt: &impl Print, file: &mut impl Read) -> io::Result<()> {
    let count = words::half(file)?;
    for _ in 0..count {
        case(rt, file)?;
    }
    Ok(())
}
