// The files: words of 32 bits. Before the calls stand what the tables hold and how much of each is in the digest; before each call its name.
use std::io;
use std::io::Read;
use test_parts::words::{flip8, word};

// What the bytes of the buffer are at first; and how many bytes of the links, entries of numbers and order, entries of the answer table, fields
// and bytes of the heard table are in the digest.
#[derive(Clone, Copy)]
pub struct Sizes {
    pub byte: u32,
    pub links: usize,
    pub entries: usize,
    pub answer: usize,
    pub fields: usize,
    pub heard: usize,
}

pub fn next_sizes(file: &mut impl Read) -> io::Result<Sizes> {
    Ok(Sizes {
        byte: word(file)?,
        links: word(file)? as usize,
        entries: word(file)? as usize,
        answer: word(file)? as usize,
        fields: word(file)? as usize,
        heard: word(file)? as usize,
    })
}

// A call: which one, and 1 where of its answer the number alone is printed; n, and two radios, or a radio and a level, or a place and bits to
// flip there; how much of each table is lent. `room` is the count of places for nodes, or of bytes of the buffer, or the step of a proposal;
// `seen` how many bytes of the buffer are in the digest. `entries` of the fields and `changes` of the heard table come before the call.
#[derive(Clone, Copy)]
pub struct Call {
    pub kind: u32,
    pub said: u32,
    pub n: u32,
    pub a: u32,
    pub b: u32,
    pub links: usize,
    pub numbers: usize,
    pub order: usize,
    pub answer: usize,
    pub fields: usize,
    pub heard: usize,
    pub room: usize,
    pub seen: usize,
    pub entries: usize,
    pub changes: usize,
    pub sizes: Sizes,
}

pub fn next_call(file: &mut impl Read, sizes: Sizes) -> io::Result<Call> {
    Ok(Call {
        kind: word(file)?,
        said: word(file)?,
        n: word(file)?,
        a: word(file)?,
        b: word(file)?,
        links: word(file)? as usize,
        numbers: word(file)? as usize,
        order: word(file)? as usize,
        answer: word(file)? as usize,
        fields: word(file)? as usize,
        heard: word(file)? as usize,
        room: word(file)? as usize,
        seen: word(file)? as usize,
        entries: word(file)? as usize,
        changes: word(file)? as usize,
        sizes,
    })
}

// The next changes of the heard table: a word is a place and, in its lowest byte, the bits that are flipped there.
pub fn flips(file: &mut impl Read, count: usize, heard: &mut [u8]) -> io::Result<()> {
    for _ in 0..count {
        let change = word(file)?;
        flip8(heard, (change / 256) as usize, change % 256);
    }
    Ok(())
}
