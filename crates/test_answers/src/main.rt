// Answers about sites, compared with what separate programs work out: shell trees, connected cores, backbones and staircase trees
// (oracle/trees.py), two hubs of one mesh (oracle/hubs.py), and links that lift a radio (oracle/lift.py). oracle/answers.py writes data/
// and the expected output.
#![tactic(auto)]

mod asking;
mod calling;
mod compare;
mod hub;
mod hubs;
mod lifts;
mod reading;
mod tally;
mod trees;

use std::io;
use std::rt::Files;
use test_parts::files;

fn play_trees(rt: &(impl Files + Print)) -> io::Result<()> {
    let mut file = files::open(rt, "trees")?;
    trees::play(rt, &mut file)
}

fn play_hubs(rt: &(impl Files + Print)) -> io::Result<()> {
    let mut file = files::open(rt, "hubs")?;
    hubs::play(rt, &mut file)
}

fn main(rt: HostRuntime) -> io::Result<()> {
    play_trees(&rt)?;
    play_hubs(&rt)?;
    lifts::play(&rt)
}
