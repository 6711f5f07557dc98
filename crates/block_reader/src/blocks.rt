// The block reader on an image and the number of its next block. Questions 9 and 10 are put to the whole image once a step;
// any number, however large, is safe.
ghost use Rattle.std.specs.Prelude.{◌≡◌};
ghost use Rattle.calls.specs.CallContracts.{BlockContract};
ghost use Rattle.block_reader.specs.Reader.{PartThere, part_start, PartOf, Stepped, Moved};

use calls::Block;
use image::{checks, layout};

// A step of a reader whose next block is `next`, in the form for C: where the payload lies in the image, and the number of the
// next block. At the end and on a refusal offset and length are 0 and the number is kept.
pub fn block(image: &[u8], next: usize) -> Block
    ensures { BlockContract image.now next result }
{
    let none = Block {
        number: 0,
        end: 0,
        offset: 0,
        length: 0,
        next,
    };
    if let Err(refusal) = checks::ask(image) {
        return Block {
            number: u32::from(refusal),
            ..none
        };
    }
    if image.len() / layout::BLOCK <= next {
        return Block { end: 1, ..none };
    }
    Block {
        offset: layout::BLOCK * next + layout::HEAD,
        length: layout::PAYLOAD,
        next: next + 1,
        ..none
    }
}

// What a step gives of the image: the payload of block i, that part of it and not a copy; where `length` is 0, an empty part.
fn payload(image: &[u8], i: usize, length: usize) -> &[u8]
    requires { PartThere i length image.now }
    ensures { PartOf (part_start i length) length image.entry result }
{
    if length == 0 {
        return &image[0..0];
    }
    &image[layout::BLOCK * i + layout::HEAD..layout::BLOCK * i + layout::BODY]
}

// A reader of blocks: the image, and the number of the next block.
#[derive(Clone, Copy)]
pub struct BlockReader<'a> {
    pub image: &'a [u8],
    pub next: usize,
}

// What a step gives: the block's payload, the refusal number, 1 at the end, and the number of the next block.
#[derive(Clone, Copy)]
pub struct BlockStep<'a> {
    pub part: &'a [u8],
    pub number: u32,
    pub end: u32,
    pub next: usize,
}

// A reader that stands before the first block of the image.
pub fn open<'a>(image: &'a [u8]) -> BlockReader<'a>
    ensures { (result.image ≡ image.entry) × (result.next ≡ 0) }
{
    BlockReader { image, next: 0 }
}

// A step of the reader: the part is the block's payload in the image, not a copy; at the end and on a refusal it is empty and
// the number is kept.
pub fn step<'a>(r: BlockReader<'a>) -> BlockStep<'a>
    ensures { Stepped r.entry result }
{
    let image = r.image;
    let next = r.next;
    let b = block(image, next);
    let part = payload(image, next, b.length);
    BlockStep {
        part,
        number: b.number,
        end: b.end,
        next: b.next,
    }
}

// The reader after a step: before the next block where one was given; at the end and on a refusal as it was.
pub fn moved<'a>(r: BlockReader<'a>) -> BlockReader<'a>
    ensures { Moved r.entry result }
{
    let image = r.image;
    let b = block(image, r.next);
    BlockReader {
        image,
        next: b.next,
    }
}
