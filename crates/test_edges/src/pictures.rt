// The image of a site, with buffers of several lengths.
use super::say;
use calls::Value;
use image_writer::writer;
use mesh::Lent;
use std::io;
use test_parts::parts;

// More bytes than any image here has.
const BUFFER: usize = 8192;

// What bytes hold that are not to be written.
const BYTE: u8 = 170;

// Writes the image to a buffer of len bytes and prints the answer, and how many bytes past the image's length are written.
fn write(rt: &impl Print, t: &Lent, buffer: &mut [u8], len: usize) -> io::Result<usize> {
    let k = len.min(buffer.len());
    let answer = Value::from(writer::write(t, &mut buffer[..k]));
    let end = answer.value as usize;
    let past = parts::touched(buffer, end, BYTE);
    println!(rt; "write {} {} {past}", answer.number, answer.value)?;
    Ok(end)
}

// Writes the image to a longer buffer, to one that is a byte short, and to one that is just right: of this it prints the bytes.
pub fn write_all(rt: &impl Print, t: &Lent) -> io::Result<()> {
    let mut buffer = [BYTE; BUFFER];
    let len = write(rt, t, &mut buffer, BUFFER)?;
    let mut exact = [BYTE; BUFFER];
    write(rt, t, &mut exact, len.wrapping_sub(1))?;
    write(rt, t, &mut exact, len)?;
    say::entries(rt, "image", parts::front(&exact, len))
}

// A written byte is counted: of two, one from the third place on.
pub fn canary(rt: &impl Print) -> io::Result<()> {
    let mut buffer = [BYTE; 8];
    buffer[1] = 0;
    buffer[7] = 0;
    println!(rt; "canary {}", parts::touched(&buffer, 2, BYTE))
}
