// The keep: a file without a name, in which answers wait until the input is read to its end. A short run needs none.
ghost use Rattle.std.specs.Prelude.{IfSome, IsSome, ◌≡◌};
ghost use Rattle.std.specs.Fd.{file_raw_fd};
ghost use Rattle.lists.specs.Kit.{true};
ghost use Rattle.player.specs.Reading.{is_keep, CopiesOnce, Copied};

use super::input;
use super::input::{State, Unread};
use std::fs::{File, OpenOptions};
use std::io::{ErrorKind, Read, Seek, SeekFrom, Write};
use std::os::fd::{AsRawFd, RawFd};
use std::os::unix::fs::OpenOptionsExt;
use std::random::RandomSource;
use std::rt::Files;
use std::{fs, io};

// The largest descriptor of a program's own input, output and errors.
const OWN: i32 = 2;

// What stands for the letters of a name.
const LETTERS: usize = 6;

// How many names are tried.
const NAMES: u32 = 1000;

// A letter or a digit, by the low bits of a byte.
fn letter(byte: u8) -> u8 {
    let low = byte & 31;
    if low < 26 {
        b'a' + low
    } else {
        b'2' + (low - 26)
    }
}

// Puts letters by random bytes.
fn put_letters<R: RandomSource>(source: &R, letters: &mut [u8]) -> io::Result<()> {
    source.fill_bytes(letters)?;
    for byte in letters.iter_mut() {
        *byte = letter(*byte);
    }
    Ok(())
}

// A new file of this name, for its owner alone, which has the name no longer once it is open.
fn open<R: Files<File = File>>(files: &R, path: &str) -> io::Result<File> {
    let file = OpenOptions::new()
        .read(true)
        .write(true)
        .create_new(true)
        .mode(0o600)
        .open(files, path)?;
    let _ = fs::remove_file(files, path);
    Ok(file)
}

// Whether a descriptor is none of the program's own.
pub fn is_keep(descriptor: RawFd) -> bool
    ensures { result ≡ is_keep descriptor }
{
    if descriptor < 0 {
        return true;
    }
    OWN < descriptor
}

// The file, where it is none of the program's own descriptors.
pub fn kept<F: AsRawFd + Drop>(file: F) -> Option<F>
    ensures { IfSome result (λ f. IfSome (F.raw_fd f) (λ d. is_keep d ≡ true)) }
{
    if is_keep(file.as_raw_fd()) {
        return Some(file);
    }
    None
}

// A new keep, whose file has this name, with other letters for XXXXXX, until it is open; none where there is none.
pub fn new<R: Files<File = File> + RandomSource>(rt: &R, name: &mut [u8]) -> Option<File>
    ensures { IfSome result (λ f. is_keep (file_raw_fd f) ≡ true) }
{
    if !name.ends_with(b"XXXXXX") {
        return None;
    }
    let from = name.len() - LETTERS;
    for _ in 0..NAMES {
        put_letters(rt, &mut name[from..]).ok()?;
        match open(rt, std::str::from_utf8(name).ok()?) {
            Ok(file) => return kept(file),
            Err(e) if e.kind() == ErrorKind::AlreadyExists => {}
            Err(_) => return None,
        }
    }
    None
}

// One read of the keep, written: what it found.
fn copy_on<O: Write>(keep: &File, output: &mut O) -> State
    ensures { CopiesOnce result }
{
    let mut chunk = [0u8; 65536];
    let mut from = keep;
    let got = input::read(&mut from, usize::MAX, &mut chunk);
    if output.write_all(&chunk[..got.count]).is_err() {
        return State::Failed(Unread::Other);
    }
    got.state
}

// Writes all that the keep has: whether it was read and taken to its end. Where there is no keep, nothing was put into it.
pub fn copy<O: Write>(keep: Option<&File>, output: &mut O) -> bool
    ensures { result ≡ true → IsSome keep.entry → Copied }
{
    let Some(file) = keep else {
        return true;
    };
    let mut start = file;
    if start.seek(SeekFrom::Start(0)).is_err() {
        return false;
    }
    for _ in 0..input::most() {
        match copy_on(file, output) {
            State::GoesOn => {}
            State::End => return true,
            State::Failed(_) => return false,
        }
    }
    false
}
