// The cases of a file: a line for each, of five words that bars part: the input's name, the verb, how many words follow the verb, and the
// first two of these.
use crate::run;
use crate::run::Asked;
use std::io;
use test_parts::files;

// More than the file has.
const BYTES: usize = 8192;

// The word that a bar ends, and what follows the bar; of a line without one, the line.
fn cut(line: &str) -> (&str, &str) {
    line.split_once('|').unwrap_or((line, ""))
}

// Runs the case of a line.
fn run_case(rt: &HostRuntime, line: &str) -> io::Result<()> {
    let (path, first) = cut(line);
    let (verb, second) = cut(first);
    let (many, third) = cut(second);
    let (v, k) = cut(third);
    let count = many.parse::<usize>().unwrap_or(0);
    run::words(rt, path, Asked { verb, count, v, k })
}

// Runs every case of the file.
pub fn run_all(rt: &HostRuntime, path: &str) -> io::Result<()> {
    let mut bytes = [0u8; BYTES];
    let mut file = files::open(rt, path)?;
    let length = files::read_full(&mut file, &mut bytes)?;
    let Ok(text) = std::str::from_utf8(&bytes[..length]) else {
        return Err(io::Error::from(io::ErrorKind::InvalidData));
    };
    for line in text.lines() {
        run_case(rt, line)?;
    }
    Ok(())
}
