// One link that lifts a radio, asked for radios of the sites of nine files of data/, whose answers a separate program worked out
// (oracle/lift.py). A line for each file: its name, how many sites it has, for how many radios was asked, how many of them have a pair
// and how many have none, and a digest of all answers.
use crate::asking;
use crate::tally::Tally;
use std::io;
use std::rt::Files;
use test_parts::files;

// A file's line.
fn line(rt: &impl Print, path: &str, t: Tally) -> io::Result<()> {
    print!(rt; "{path} sites {} asked {}", t.sites, t.asked)?;
    println!(rt; " pairs {} none {} digest {}", t.pairs, t.none, t.digest)
}

// One file.
fn case(rt: &(impl Files + Print), path: &str) -> io::Result<()> {
    let mut file = files::open(rt, path)?;
    let t = asking::file(&mut file)?;
    line(rt, path, t)
}

fn documents(rt: &(impl Files + Print)) -> io::Result<()> {
    case(rt, "worked")?;
    case(rt, "questions")
}

// Every graph of so many radios.
fn graphs(rt: &(impl Files + Print)) -> io::Result<()> {
    case(rt, "all-4")?;
    case(rt, "all-5")
}

fn random(rt: &(impl Files + Print)) -> io::Result<()> {
    case(rt, "small")?;
    case(rt, "middle")?;
    case(rt, "regular")
}

pub fn play(rt: &(impl Files + Print)) -> io::Result<()> {
    documents(rt)?;
    graphs(rt)?;
    random(rt)?;
    // radios with 39 and 40 neighbours
    case(rt, "full")?;
    case(rt, "large")
}
