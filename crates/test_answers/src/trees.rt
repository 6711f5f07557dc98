// Shell trees, connected cores, backbones and staircase trees on the sites of data/trees, compared with outcomes that a separate program
// worked out (oracle/trees.py). Of each call its number, its value and every entry of what it was lent are compared, entries that must
// keep their content too. A line for each site: its name, how many calls were made, how many values were compared, and how many were
// wrong. Of the last one's calls each owes one wrong value on purpose: all must be found.
use crate::calling;
use std::io;
use std::io::Read;
use test_parts::{say, words};

// The next site, and its line.
fn site(rt: &impl Print, file: &mut impl Read) -> io::Result<()> {
    say::next_name(rt, file)?;
    let t = calling::site(file)?;
    println!(rt;
        " calls {} compared {} wrong {}",
        t.calls, t.compared, t.wrong
    )
}

// All sites of the file, after their count.
pub fn play(rt: &impl Print, file: &mut impl Read) -> io::Result<()> {
    let count = words::half(file)?;
    for _ in 0..count {
        site(rt, file)?;
    }
    Ok(())
}
