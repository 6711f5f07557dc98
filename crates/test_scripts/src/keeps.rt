// The keep of a run, in which long answers wait; and the program as it is started.
use crate::{print_errors, print_status};
use player::input::Ends;
use player::keeping;
use std::cell::Cell;
use std::fs::File;
use std::io;
use std::io::Seek;
use std::os::fd::{AsRawFd, RawFd};
use test_parts::files;

// Plays one script with this keep.
fn play(rt: &HostRuntime, path: &str, keep: Option<&File>) -> io::Result<()> {
    let mut ends = Ends {
        input: files::open(rt, path)?,
        output: rt.stdout(),
        errors: files::temporary(rt)?,
    };
    println!(rt; "{path} kept")?;
    let status = player::run_kept(&mut ends, keep, usize::MAX);
    print_errors(rt, &mut ends.errors)?;
    print_status(rt, status)
}

// Long answers, which wait in a file that takes no write, and in none; short ones, which need none.
pub fn all(rt: &HostRuntime) -> io::Result<()> {
    let keep = files::open(rt, "m1")?;
    play(rt, "output-4096", Some(&keep))?;
    play(rt, "output-4096", None)?;
    play(rt, "m1", None)
}

// Whether the keep is there and open.
fn is_open(keep: Option<File>) -> bool {
    match keep {
        Some(mut file) => file.stream_position().is_ok(),
        None => false,
    }
}

// Whether a file of this name is there.
fn is_named(rt: &HostRuntime, name: &[u8]) -> bool {
    match std::str::from_utf8(name) {
        Ok(path) => files::open(rt, path).is_ok(),
        Err(_) => false,
    }
}

// Whether a new keep is open, and whether its file still has a name.
fn new(rt: &HostRuntime) -> io::Result<()> {
    let mut name = *b"keep-XXXXXX";
    let keep = keeping::new(rt, &mut name);
    println!(rt; "keep {}", is_open(keep) as u32)?;
    println!(rt; "named {}", is_named(rt, &name) as u32)
}

// A new file in the place of the program's input, as a program whose input is closed gets one. It notes that it is closed.
struct Low<'a> {
    open: &'a Cell<bool>,
}

impl<'a> AsRawFd for Low<'a> {
    fn as_raw_fd(&self) -> RawFd {
        0
    }
}

impl<'a> Drop for Low<'a> {
    fn drop(self) {
        let Low { open } = self;
        open.set(false);
    }
}

// Whether such a file is kept, whether it has a name, and whether it is still open.
fn as_input(rt: &HostRuntime) -> io::Result<()> {
    let open = Cell::new(true);
    let keep = keeping::kept(Low { open: &open });
    println!(rt; "keep {}", keep.is_some() as u32)?;
    println!(rt; "named {}", is_named(rt, b"keep-XXXXXX") as u32)?;
    println!(rt; "input {}", open.get() as u32)
}

// A keep is no descriptor of the program's own.
pub fn news(rt: &HostRuntime) -> io::Result<()> {
    new(rt)?;
    as_input(rt)
}

// The program as it is started. Its words are this program's own, `--status 1`; its input and its errors are files.
pub fn start(rt: &HostRuntime, path: &str) -> io::Result<()> {
    println!(rt; "{path} started")?;
    let mut ends = Ends {
        input: files::open(rt, path)?,
        output: rt.stdout(),
        errors: files::temporary(rt)?,
    };
    player::start_on(rt, &mut ends);
    println!(rt)?;
    print_errors(rt, &mut ends.errors)
}
