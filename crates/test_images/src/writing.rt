// Writing an image, with a line for each length of the buffer.
use super::{parts, pattern};
use calls::Value;
use image_writer::writer;
use mesh::Lent;
use std::io;
use test_parts::digest;

// The bytes of the largest image, of 86 blocks, and two blocks more.
pub(crate) const BUFFER: usize = 45056;

pub(crate) type Buffer = [u8; BUFFER];

// Writes into the first k bytes of a buffer that holds the pattern, at most all, and prints the line: the bytes lent, number, length, the
// digest of the image, and whether every byte past it was kept. Comes back with the length.
fn try_write(rt: &impl Print, k: usize, t: &Lent) -> io::Result<usize> {
    let mut buffer = [pattern::BYTE; BUFFER];
    let end = k.min(BUFFER);
    let answer = Value::from(writer::write(t, &mut buffer[..end]));
    let length = answer.value as usize;
    let digest = digest::of(0, parts::front(&buffer, length));
    let kept = pattern::is_kept(parts::rest(&buffer, length)) as u32;
    println!(rt; "write {k} {} {length} {digest} {kept}", answer.number)?;
    Ok(length)
}

// Writes tables that are refused, into a buffer that would do and into none.
pub(crate) fn try_refused(rt: &impl Print, t: &Lent) -> io::Result<()> {
    try_write(rt, 1536, t)?;
    try_write(rt, 0, t)?;
    Ok(())
}

// Writes into more bytes than the image has, into as many, into one less, and into none. Comes back with how many it has.
pub(crate) fn try_writes(rt: &impl Print, t: &Lent) -> io::Result<usize> {
    let exact = try_write(rt, BUFFER, t)?;
    try_write(rt, exact, t)?;
    try_write(rt, exact.wrapping_sub(1), t)?;
    try_write(rt, 0, t)?;
    Ok(exact)
}

// The image, and zeros after it.
pub(crate) fn image_of(t: &Lent) -> Buffer {
    let mut buffer = [0u8; BUFFER];
    let _ = writer::write(t, &mut buffer);
    buffer
}

// Whether two images are the same, byte for byte.
pub(crate) fn is_same(image: &[u8], other: &[u8]) -> bool {
    image == other
}

// Whether the tables of an accepted image give it again, byte for byte.
pub(crate) fn is_again(t: &Lent, image: &[u8]) -> bool {
    let again = image_of(t);
    is_same(image, parts::front(&again, image.len()))
}
