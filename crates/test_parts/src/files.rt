// Files of the folder that a program is run in.
ghost use Rattle.std.specs.Prelude.{◌≤◌, length, IfOk};

use std::fs::OpenOptions;
use std::io::Read;
use std::rt::Files;
use std::{fs, io};

// The file of this name, open for reading. Where there is none the run says so and ends.
pub fn open<R: Files>(rt: &R, path: &str) -> io::Result<R::File> {
    fs::open(rt, path)
}

// The name that a file without one has for a moment.
const UNNAMED: &str = "file-without-a-name";

// A new file without a name, open for reading and writing. Where there is none the run says so and ends.
pub fn temporary<R: Files>(rt: &R) -> io::Result<R::File> {
    let file = OpenOptions::new()
        .read(true)
        .write(true)
        .create_new(true)
        .open(rt, UNNAMED)?;
    fs::remove_file(rt, UNNAMED)?;
    Ok(file)
}

// A new file without a name, open for writing alone: a read of it fails as one of a closed file does.
pub fn unreadable<R: Files>(rt: &R) -> io::Result<R::File> {
    let file = OpenOptions::new()
        .write(true)
        .create_new(true)
        .open(rt, UNNAMED)?;
    fs::remove_file(rt, UNNAMED)?;
    Ok(file)
}

// Reads until the buffer is full or the file ends: how many bytes stand at its front then.
pub fn read_full(file: &mut impl Read, buffer: &mut [u8]) -> io::Result<usize>
    ensures { IfOk result (λ n. n ≤ length buffer.new) }
{
    let mut done = 0;
    while done < buffer.len() {
        let count = file.read(&mut buffer[done..])?;
        if count == 0 {
            break;
        }
        done += count;
    }
    Ok(done)
}
