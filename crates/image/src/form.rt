// The first part of question 11: has the image the form that its header says? Kinds, zero bytes, indices and unused payload are tested in
// place, and nothing is written.
ghost use Rattle.std.specs.Prelude.{◌≡◌, ◌≤◌, ◌<◌, ◌+◌, ◌*◌};
ghost use Rattle.lists.specs.Kit.{length};
ghost use Rattle.mesh.specs.Image.{block_bytes, payload_bytes, block_count};
ghost use Rattle.image.specs.Header.{HeaderOf};
ghost use Rattle.image.specs.Form.{zeros, block_formed, kind_byte, kind_of, used_of, blocks_formed, is_formed};

use super::header::Header;
use super::layout::Kind;
use super::{bytes, layout};
use tables::fill::least;

// Whether the k bytes from `at` on are zero. It does not stop at the first that is not: the compiler then tests many at a time.
fn are_zeros(image: &[u8], at: usize, k: usize) -> bool
    requires { at + k ≤ length image.now }
    ensures { result ≡ zeros image.now at k }
{
    let mut all = true;
    for j in 0..k {
        all = all & (image[at + j] == 0);
    }
    all
}

// The kind of a block, and how many bytes of its payload are used.
#[derive(Clone, Copy)]
struct Shape {
    kind: Kind,
    used: usize,
}

// Whether block i has this shape: its kind, a zero byte, its index, and zeros past the used bytes of its payload.
fn is_block(image: &[u8], i: u32, shape: Shape) -> bool
    requires { (block_bytes * i + block_bytes ≤ length image.now) × (shape.used ≤ payload_bytes) }
    ensures { result ≡ block_formed image.now i (kind_byte shape.kind) shape.used }
{
    let at = layout::BLOCK * i as usize;
    if image[at] != shape.kind.byte() {
        return false;
    }
    if image[at + 1] != 0 {
        return false;
    }
    if bytes::word_at(image, at + 2) != i {
        return false;
    }
    are_zeros(
        image,
        at + layout::HEAD + shape.used,
        layout::PAYLOAD - shape.used,
    )
}

// The shape of block i of an image with this header.
fn shape_of(header: Header, i: u32) -> Shape
    requires { (header.radios < 65536) × (header.links < 65536) × (i < block_count header.radios header.links) }
    ensures { (kind_byte result.kind ≡ kind_of header.radios i) × (result.used ≡ used_of header.radios header.links i) × (result.used ≤ payload_bytes) }
{
    if i == 0 {
        return Shape {
            kind: Kind::Counts,
            used: 4,
        };
    }
    let j = i - 1;
    let orders = layout::blocks_for(header.radios, layout::ENTRIES);
    if j < orders {
        let left = (header.radios - layout::ENTRIES * j) as usize;
        return Shape {
            kind: Kind::Order,
            used: 2 * least(layout::ENTRIES as usize, left),
        };
    }
    let left = (header.links - layout::LINKS * (j - orders)) as usize;
    Shape {
        kind: Kind::Links,
        used: 4 * least(layout::LINKS as usize, left),
    }
}

// Whether the first `blocks` blocks are formed.
fn are_formed(image: &[u8], header: Header, blocks: u32) -> bool
    requires fits { (header.radios < 65536) × (header.links < 65536) }
    requires there { (blocks ≡ block_count header.radios header.links) × (block_bytes * blocks ≤ length image.now) }
    ensures { result ≡ blocks_formed header.radios header.links image.now blocks }
{
    for i in 0..blocks {
        let shape = shape_of(header, i);
        if !is_block(image, i, shape) {
            return false;
        }
    }
    true
}

// Whether the image has the length that its header says, and its blocks are formed.
pub fn is_formed(image: &[u8], header: Header) -> bool
    requires { HeaderOf image.now header }
    ensures { result ≡ is_formed header.radios image.now }
{
    let blocks = layout::block_count(header.radios, header.links);
    if image.len() != layout::BLOCK * blocks as usize {
        return false;
    }
    are_formed(image, header, blocks)
}
