// What is printed of a call's answer. Where `said` is 1, that is its number alone.
use calls::{Block, Later, Reply, Value};
use std::io;

// A refusal number.
pub fn number(rt: &impl Print, x: u32) -> io::Result<()> {
    print!(rt; " {x}")
}

// The answer of a question.
pub fn value(rt: &impl Print, r: Value) -> io::Result<()> {
    print!(rt; " {} {}", r.number, r.value)
}

// The answer of a clearing, whose value is 0.
pub fn cleared(rt: &impl Print, said: u32, x: u32) -> io::Result<()> {
    if said == 1 {
        return number(rt, x);
    }
    print!(rt; " {x} 0")
}

// The answer about later neighbours.
pub fn later(rt: &impl Print, r: Later) -> io::Result<()> {
    print!(rt; " {} {} {}", r.number, r.count, r.first)
}

// A step, with its sign.
fn signed(step: i8) -> &'static str {
    match step {
        1 => "+1",
        -1 => "-1",
        0 => "0",
        _ => "no step",
    }
}

// The answer of a commit or a proposal.
pub fn reply(rt: &impl Print, r: Reply) -> io::Result<()> {
    print!(rt; " {} {} {}", r.number, signed(r.step), r.count)
}

// The answer of a link call.
pub fn link(rt: &impl Print, said: u32, r: Reply) -> io::Result<()> {
    if said == 1 {
        return number(rt, r.number);
    }
    reply(rt, r)
}

// The answer of the block reader.
pub fn block(rt: &impl Print, r: Block) -> io::Result<()> {
    print!(rt;
        " {} {} {} {} {}",
        r.number, r.end, r.offset, r.length, r.next
    )
}
