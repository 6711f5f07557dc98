// Walking the blocks of an image.
use block_reader::blocks;
use calls::Block;
use std::io;
use test_parts::digest;

// What the block reader says of block i, and the block's payload.
fn block_at(image: &[u8], i: usize) -> (Block, &[u8]) {
    let b = blocks::block(image, i);
    let start = b.offset;
    let end = start + b.length;
    (b, &image[start..end])
}

// Steps of the block reader so far: the number of its next block, the last refusal number, the bytes given, how often it said
// the end, and a digest of all that was said and given.
#[derive(Clone, Copy)]
struct Walk {
    next: usize,
    number: u32,
    bytes: usize,
    ends: u32,
    digest: u64,
}

// The digest with what a step says of its block.
fn said(h: u64, b: Block) -> u64 {
    let answer = digest::mixed(digest::mixed(h, b.number as u64), b.end as u64);
    let place = digest::mixed(digest::mixed(answer, b.offset as u64), b.length as u64);
    digest::mixed(place, b.next as u64)
}

impl Walk {
    // One more step.
    fn step(&mut self, image: &[u8]) {
        let (b, part) = block_at(image, self.next);
        self.next = b.next;
        self.number = b.number;
        self.bytes = self.bytes.wrapping_add(part.len());
        self.ends = self.ends.wrapping_add(b.end);
        self.digest = digest::of(said(self.digest, b), part);
    }
}

// As many steps from the first block on.
fn steps(image: &[u8], count: usize) -> Walk {
    let mut walk = Walk {
        next: 0,
        number: 0,
        bytes: 0,
        ends: 0,
        digest: 0,
    };
    for _ in 0..count {
        walk.step(image);
    }
    walk
}

// The digest with a step of the reader that holds the image, which is opened at block 0, and moves on to the block that the step names.
fn noted(h: u64, b: Block, part: &[u8]) -> u64 {
    let first = digest::mixed(digest::mixed(h, 0), b.number as u64);
    let ended = digest::mixed(first, b.end as u64);
    let numbers = digest::mixed(digest::mixed(ended, b.next as u64), b.next as u64);
    digest::of(numbers, part)
}

// The digest of as many blocks, each asked for by its number.
fn steps_at(image: &[u8], count: usize) -> u64 {
    let mut h: u64 = 0;
    for i in 0..count {
        let (b, part) = block_at(image, i);
        h = noted(h, b, part);
    }
    h
}

// Walks the image, two steps past its last block, and prints where the reader stands after the steps, its last number, the payload bytes given,
// how often it said the end, and the digest; then the digest of the same blocks, each asked for by its number.
pub(crate) fn try_blocks(rt: &impl Print, image: &[u8]) -> io::Result<()> {
    let count = image.len() / 512 + 2;
    let walk = steps(image, count);
    print!(rt; "blocks {} {}", walk.next, walk.number)?;
    println!(rt; " {} {} {}", walk.bytes, walk.ends, walk.digest)?;
    println!(rt; "held {}", steps_at(image, count))
}
