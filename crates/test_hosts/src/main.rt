// The exported calls, as a host makes them: those of data/exports, data/marks, data/batches and data/hearings, file by file and one after
// another, on tables of the host's own. Of each call its name and its answer are printed, and a digest of the tables that the host has:
// entries past a lent part and tables that the call only reads are in it too. Between the calls other hands change the tables where the
// file says so. Calls and expected lines are worked out by oracle/exports.py, oracle/marks.py, oracle/batches.py and oracle/heard.py;
// oracle/hosts.py writes them.
#![tactic(auto)]

mod asking;
mod calling;
mod host;
mod reading;
mod say;

use std::io;
use std::rt::Files;
use test_parts::files;

fn play(rt: &(impl Files + Print), path: &str) -> io::Result<()> {
    let mut file = files::open(rt, path)?;
    host::play(rt, &mut file)
}

fn main(rt: HostRuntime) -> io::Result<()> {
    play(&rt, "exports")?;
    play(&rt, "marks")?;
    play(&rt, "batches")?;
    play(&rt, "hearings")
}
