// The program as it is started. Its words are this program's own, `--status 1 staircase`; its input and its errors are files.
use crate::{long, run};
use player::input::Ends;
use std::fs::{File, OpenOptions};
use std::io;
use std::io::{Read, Seek, SeekFrom, Write};
use test_parts::files;

// Starts the program on an input, with its errors in a file of their own, which is printed after its status.
fn start(rt: &HostRuntime, input: &File) -> io::Result<()> {
    let mut ends = Ends {
        input,
        output: rt.stdout(),
        errors: run::new_file(rt)?,
    };
    site_program::start_on(rt, &mut ends);
    println!(rt)?;
    run::print_file(rt, &ends.errors)
}

// Starts it on a file.
pub fn on(rt: &HostRuntime, path: &str) -> io::Result<()> {
    println!(rt; "{path} started")?;
    start(rt, &files::open(rt, path)?)
}

// A script that takes more than the front.
fn many_lines(rt: &HostRuntime) -> io::Result<File> {
    let mut file = run::new_file(rt)?;
    long::write_shown(&mut file)?;
    file.seek(SeekFrom::Start(0))?;
    Ok(file)
}

// Starts it on many lines: a file is not shown how far it is.
pub fn on_lines(rt: &HostRuntime) -> io::Result<()> {
    println!(rt; "many lines started")?;
    start(rt, &many_lines(rt)?)
}

// The first byte that a terminal was written: it gives it back, before the one that is written here.
fn first_byte(terminal: &mut File) -> io::Result<u8> {
    let mut byte = [0u8; 1];
    terminal.write_all(b"x")?;
    terminal.read_exact(&mut byte)?;
    Ok(byte[0])
}

// Starts it on an input with a terminal for its errors: the first byte that the terminal was written.
fn start_shown(rt: &HostRuntime, input: &File, terminal: File) -> io::Result<u8> {
    let mut ends = Ends {
        input,
        output: rt.stdout(),
        errors: terminal,
    };
    site_program::start_on(rt, &mut ends);
    first_byte(&mut ends.errors)
}

// Starts it on an input with errors that show nobody anything.
fn start_unseen(rt: &HostRuntime, input: &File) -> io::Result<u8> {
    let mut ends = Ends {
        input,
        output: rt.stdout(),
        errors: run::new_file(rt)?,
    };
    site_program::start_on(rt, &mut ends);
    Ok(b'\r')
}

// The same with a terminal in place of the file: it is shown, by a line that begins with a carriage return. A machine without terminals
// shows nobody anything.
pub fn on_terminal(rt: &HostRuntime) -> io::Result<()> {
    println!(rt; "terminal started")?;
    let lines = many_lines(rt)?;
    let terminal = OpenOptions::new()
        .read(true)
        .write(true)
        .open(rt, "/dev/ptmx");
    let byte = match terminal {
        Ok(terminal) => start_shown(rt, &lines, terminal)?,
        Err(_) => start_unseen(rt, &lines)?,
    };
    println!(rt; "\nfirst byte {byte}")
}
