// The words of a file, lowest byte first; past the file's end they are 0. And entries of a table put and flipped.

use crate::files;
use std::io;
use std::io::Read;

// The next word of 32 bits.
pub fn word(file: &mut impl Read) -> io::Result<u32> {
    let mut four = [0u8; 4];
    files::read_full(file, &mut four)?;
    Ok(u32::from_le_bytes(four))
}

// The next word of 16 bits.
pub fn half(file: &mut impl Read) -> io::Result<u16> {
    let mut two = [0u8; 2];
    files::read_full(file, &mut two)?;
    Ok(u16::from_le_bytes(two))
}

// The next words, of 32 bits, as entries of a list; of those past its end nothing is kept.
pub fn entries(file: &mut impl Read, count: usize, list: &mut [u16]) -> io::Result<()> {
    for i in 0..count {
        let x = (word(file)? % 65536) as u16;
        if i < list.len() {
            list[i] = x;
        }
    }
    Ok(())
}

// Flips bits of a byte; past the end nothing changes.
pub fn flip8(s: &mut [u8], at: usize, x: u32) {
    if at < s.len() {
        s[at] ^= (x % 256) as u8;
    }
}

// Flips bits of an entry; past the end nothing changes.
pub fn flip16(s: &mut [u16], at: usize, x: u32) {
    if at < s.len() {
        s[at] ^= (x % 65536) as u16;
    }
}
