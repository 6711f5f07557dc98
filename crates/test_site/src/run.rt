// One run of the library, printed: what it prints, then its errors, then the status.
ghost use Rattle.std.specs.Prelude.{◌≤◌, length, IfOk};

use player::input::Ends;
use std::fs::File;
use std::io;
use std::io::{Seek, SeekFrom, Write};
use std::os::fd::AsRawFd;
use test_parts::{digest, files};

// As many bytes as the longest text, and more.
const BYTES: usize = 131072;

// More than an error line has.
const ERRORS: usize = 512;

// A verb with `count` words after it, of which v and k are the first.
#[derive(Clone, Copy)]
pub struct Asked<'a> {
    pub verb: &'a str,
    pub count: usize,
    pub v: &'a str,
    pub k: &'a str,
}

// A verb alone.
fn alone(verb: &str) -> Asked<'_> {
    Asked {
        verb,
        count: 0,
        v: "",
        k: "",
    }
}

// A new file without a name, open for reading and writing.
pub(crate) fn new_file(rt: &HostRuntime) -> io::Result<File> {
    files::temporary(rt)
}

// The file is read from its beginning next.
fn rewind(file: &File) -> io::Result<u64> {
    let mut from = file;
    from.seek(SeekFrom::Start(0))
}

// Reads the front of a file: how many bytes it has there.
fn read(file: &File, bytes: &mut [u8]) -> io::Result<usize>
    ensures { IfOk result (λ n. n ≤ length bytes.new) }
{
    let mut from = file;
    files::read_full(&mut from, bytes)
}

// Prints what a short file has.
pub(crate) fn print_file(rt: &HostRuntime, file: &File) -> io::Result<()> {
    let mut bytes = [0u8; ERRORS];
    rewind(file)?;
    let count = read(file, &mut bytes)?;
    rt.write_all(&bytes[..count])
}

// Runs a verb with reads of at most `most` bytes, its output to `output`, and prints the errors and the status.
fn run<O: Write + Drop>(
    rt: &HostRuntime,
    input: &File,
    output: O,
    most: usize,
    asked: Asked,
) -> io::Result<()> {
    let errors = new_file(rt)?;
    let mut ends = Ends {
        input,
        output,
        errors: &errors,
    };
    let Asked { verb, count, v, k } = asked;
    let status = site_program::run(
        &mut ends,
        most,
        false,
        verb.as_bytes(),
        count,
        v.as_bytes(),
        k.as_bytes(),
    );
    print_file(rt, &errors)?;
    println!(rt; "status {status}")
}

// The verb `check` on a file, as on a terminal: how far it is is shown. The file is closed.
pub(crate) fn shown(rt: &HostRuntime, file: File, most: usize) -> io::Result<()> {
    let errors = new_file(rt)?;
    let mut ends = Ends {
        input: &file,
        output: rt.stdout(),
        errors: &errors,
    };
    rewind(&file)?;
    let status = site_program::run(&mut ends, most, true, b"check", 0, b"", b"");
    print_file(rt, &errors)?;
    println!(rt; "\nstatus {status}")
}

// Runs a verb without numbers on a file from its beginning.
fn again<O: Write + Drop>(
    rt: &HostRuntime,
    file: &File,
    output: O,
    most: usize,
    verb: &str,
) -> io::Result<()> {
    rewind(file)?;
    run(rt, file, output, most, alone(verb))
}

// The same, with its output printed, and the file closed.
pub(crate) fn last(rt: &HostRuntime, file: File, most: usize, verb: &str) -> io::Result<()> {
    again(rt, &file, rt.stdout(), most, verb)
}

// Prints the words of a case.
fn print_words(rt: &HostRuntime, path: &str, asked: Asked) -> io::Result<()> {
    println!(rt; "{path} {} {} {}", asked.verb, asked.v, asked.k)
}

// A verb with its words on a file.
pub fn words(rt: &HostRuntime, path: &str, asked: Asked) -> io::Result<()> {
    let file = files::open(rt, path)?;
    print_words(rt, path, asked)?;
    run(rt, &file, rt.stdout(), usize::MAX, asked)
}

// A verb on a file that is read by so many bytes at a time.
pub fn by_reads(rt: &HostRuntime, path: &str, verb: &str, most: usize) -> io::Result<()> {
    let file = files::open(rt, path)?;
    print_words(rt, path, alone(verb))?;
    again(rt, &file, rt.stdout(), most, verb)
}

// The verb `check` on an input that is not open for reading.
pub fn closed(rt: &HostRuntime) -> io::Result<()> {
    let file = files::unreadable(rt)?;
    println!(rt; "closed")?;
    run(rt, &file, rt.stdout(), usize::MAX, alone("check"))
}

// A verb on a file, whose output cannot be written: it is open for reading alone.
pub fn unwritten(rt: &HostRuntime, path: &str, verb: &str) -> io::Result<()> {
    let file = files::open(rt, path)?;
    let output = files::open(rt, path)?;
    print_words(rt, path, alone(verb))?;
    again(rt, &file, &output, usize::MAX, verb)
}

// A verb on a file, whose errors cannot be written: they show nowhere else.
pub fn silent(rt: &HostRuntime, path: &str, verb: &str) -> io::Result<()> {
    let file = files::open(rt, path)?;
    let errors = files::open(rt, path)?;
    print_words(rt, path, alone(verb))?;
    let mut ends = Ends {
        input: &file,
        output: rt.stdout(),
        errors: &errors,
    };
    let status = site_program::run(&mut ends, usize::MAX, false, verb.as_bytes(), 0, b"", b"");
    println!(rt; "status {status}")
}

// Prints the length and the digest of what a file has.
fn print_digest(rt: &HostRuntime, file: &File) -> io::Result<()> {
    let mut bytes = [0u8; BYTES];
    rewind(file)?;
    let count = read(file, &mut bytes)?;
    println!(rt; "bytes {count}")?;
    println!(rt; "digest {}", digest::of(0, &bytes[..count]))
}

// A verb on a file, of whose output the length and the digest are printed.
pub fn long_text(rt: &HostRuntime, path: &str, verb: &str) -> io::Result<()> {
    let file = files::open(rt, path)?;
    let output = new_file(rt)?;
    print_words(rt, path, alone(verb))?;
    again(rt, &file, &output, usize::MAX, verb)?;
    print_digest(rt, &output)
}

// A status, told in a file of its own, and not told.
pub fn told(rt: &HostRuntime, status: u32) -> io::Result<()> {
    let file = new_file(rt)?;
    let mut ends = Ends {
        input: &file,
        output: rt.stdout(),
        errors: rt.stderr(),
    };
    let descriptor = u32::try_from(file.as_raw_fd()).ok();
    player::words::tell(rt, &mut ends, descriptor, status);
    player::words::tell(rt, &mut ends, None, status);
    print!(rt; "told ")?;
    print_file(rt, &file)?;
    println!(rt)
}

// Whether two files go on with the same bytes, as many as the longest image has.
fn is_same(one: &File, other: &File) -> io::Result<bool> {
    let mut first = [0u8; BYTES];
    let mut second = [0u8; BYTES];
    let a = read(one, &mut first)?;
    let b = read(other, &mut second)?;
    Ok(&first[..a] == &second[..b])
}

// Writes the image of the site of `input` into a new file, and compares it with the expected image.
fn compare(rt: &HostRuntime, input: &File, expected: &File) -> io::Result<()> {
    let output = new_file(rt)?;
    again(rt, input, &output, usize::MAX, "image")?;
    rewind(&output)?;
    let same = is_same(&output, expected)?;
    println!(rt; "same {}", same as u32)?;
    last(rt, output, usize::MAX, "check")
}

// The verb `image` on a file, whose output is compared with another file, and checked.
pub fn round_trip(rt: &HostRuntime, path: &str, image: &str) -> io::Result<()> {
    let input = files::open(rt, path)?;
    let expected = files::open(rt, image)?;
    println!(rt; "{path} image")?;
    compare(rt, &input, &expected)
}
