// The names that files hold, printed.
use crate::files;
use std::io;
use std::io::Read;

// A name in a file, zeros after it.
pub type Name = [u8; 16];

// The name that the file has next.
pub fn read_name(file: &mut impl Read) -> io::Result<Name> {
    let mut name = [0u8; 16];
    files::read_full(file, &mut name)?;
    Ok(name)
}

// Prints a name: what stands before the first zero.
pub fn name(rt: &impl Print, s: &Name) -> io::Result<()> {
    match s.iter().position(|x| *x == 0) {
        Some(end) => rt.write_all(&s[..end]),
        None => rt.write_all(s),
    }
}

// Prints the name that the file has next.
pub fn next_name(rt: &impl Print, file: &mut impl Read) -> io::Result<()> {
    let s = read_name(file)?;
    name(rt, &s)
}
