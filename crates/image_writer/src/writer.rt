// The image writer. Each block is filled in through its own part of the buffer: the blocks of links first, since where they end tells how
// many links there are, then the others.
ghost use Rattle.std.specs.Prelude.{◌≡◌, ◌++◌, ◌≤◌, ◌<◌, ◌+◌, ◌*◌};
ghost use Rattle.lists.specs.Kit.{flat_map, leb, length, take, drop, sets};
ghost use Rattle.lists.specs.Lists.{range};
ghost use Rattle.mesh.specs.Graph.{link_of};
ghost use Rattle.mesh.specs.Image.{block_bytes, block_entries, block_count, order_blocks, word, link_bytes, block};
ghost use Rattle.mesh.specs.Limits.{max_radios, max_neighbours, row_bytes};
ghost use Rattle.mesh.specs.Lent.{read_of};
ghost use Rattle.calls.specs.Answers.{value_reply};
ghost use Rattle.calls.specs.CallContracts.{WriteContract};
ghost use Rattle.image.specs.Form.{kind_byte};
ghost use Rattle.rows.specs.Rows.{row_from, row_word, set_bits};
ghost use Rattle.rows.specs.Links.{links_to, links_above, links_from, RowsListed};
ghost use Rattle.image_writer.specs.Filler.{opened, sealed};
ghost use Rattle.image_writer.specs.Blocks.{Place, LinksPut, Stopped, RowStopped, RowThere, RowsThere, row_left, links_left, Going, NextLink};
ghost use Rattle.image_writer.specs.Blocks.{LinksFilled, LinksFit, AllLinksFilled, front_block};

use calls::Refusal;
use image::header::Header;
use image::layout::Kind;
use image::{checks, layout};
use mesh::{Lent, Site};
use rows::link_list;
use tables::fill::{fill, least};

// The figures that count places.
const ENTRIES: usize = layout::ENTRIES as usize;

// Writes x as two bytes from `at` on, lowest first.
fn put_word(part: &mut [u8], at: usize, x: u32)
    requires { at + 2 ≤ length part.old }
    ensures { part.new ≡ sets part.old at (word x) }
{
    part[at] = (x % 256) as u8;
    part[at + 1] = (x / 256 % 256) as u8;
}

// The block is its kind, zero, its index and zeros after.
fn open_block(part: &mut [u8], kind: Kind, index: u32)
    requires { length part.old ≡ block_bytes }
    ensures { part.new ≡ opened (kind_byte kind) index }
{
    fill(part, &0);
    part[0] = kind.byte();
    put_word(part, 2, index);
}

// The check stands in the block's last four bytes after.
fn close_block(part: &mut [u8])
    requires { length part.old ≡ block_bytes }
    ensures { part.new ≡ sealed part.old }
{
    let sum = checks::check_sum(part);
    put_word(part, layout::BODY, sum);
    put_word(part, layout::BODY + 2, sum / 65536);
}

// The block of kind 0: the header.
fn fill_counts(part: &mut [u8], header: Header)
    requires { length part.old ≡ block_bytes }
    ensures { part.new ≡ block 0 0 (word header.radios ++ word header.links) }
{
    open_block(part, Kind::Counts, 0);
    put_word(part, layout::RADIOS_AT, header.radios);
    put_word(part, layout::LINKS_AT, header.links);
    close_block(part);
}

// Writes the entries of the order from `from` on into the payload, as many as a block has.
fn put_order(part: &mut [u8], order: &[u16], from: usize)
    requires { (length part.old ≡ block_bytes) × (from ≤ length order.now) }
    ensures { part.new ≡ sets part.old 4 (flat_map word (take block_entries (drop from order.now))) }
{
    let count = least(ENTRIES, order.len() - from);
    for v in 0..count {
        let x = order[from + v];
        put_word(part, layout::HEAD + 2 * v, x as u32);
    }
}

// A block of kind 1: the entries of the order from `from` on.
fn fill_order(part: &mut [u8], index: u32, order: &[u16], from: usize)
    requires { (length part.old ≡ block_bytes) × (from ≤ length order.now) }
    ensures { part.new ≡ block 1 index (flat_map word (take block_entries (drop from order.now))) }
{
    open_block(part, Kind::Order, index);
    put_order(part, order, from);
    close_block(part);
}

// Writes the link of a and b, of which a is the lower, as four bytes from `at` on.
fn put_link(part: &mut [u8], at: usize, a: u32, b: u32)
    requires { at + 4 ≤ length part.old }
    ensures { part.new ≡ sets part.old at (link_bytes (link_of a b)) }
{
    put_word(part, at, a);
    put_word(part, at + 2, b);
}

// How far the links are written: up to place `at` of a block. Left are the radios that the set bits of `rest` mark, from radio `first` on, in
// row `row`; then its words after word k; then the rows after it.
#[derive(Clone, Copy)]
struct Cursor {
    at: usize,
    row: u32,
    k: u32,
    first: u32,
    rest: u64,
}

// How far a word is written.
#[derive(Clone, Copy)]
struct Bits {
    at: usize,
    rest: u64,
}

// Writes the links of a to the radios that a word marks, from radio `first` on, into the block from `from` on, until it is full.
fn put_bits(part: &mut [u8], from: usize, a: u32, first: u32, word: u64) -> Bits
    requires { (length part.old ≡ block_bytes) × Place from × (first ≤ max_radios) }
    ensures put { LinksPut (links_to a (set_bits 64 first word)) from part.old part.new result.at
        (links_to a (set_bits 64 first result.rest)) }
    ensures stopped { Stopped result.at result.rest }
{
    let mut at = from;
    let mut rest = word;
    while rest != 0 {
        if at == layout::BODY {
            return Bits { at, rest };
        }
        put_link(part, at, a, first + u64::trailing_zeros(rest));
        at += 4;
        rest = rest & (rest - 1);
    }
    Bits { at, rest }
}

// Word k of row a.
fn row_word(links: &[u8], a: u32, k: u32) -> u64
    requires { (a < max_radios) × (k < 8) × (row_bytes * a + row_bytes ≤ length links.now) }
    ensures { result ≡ row_word 8 links.now (row_bytes * a + 8 * k) }
{
    let at = Site::ROW_BYTES * a as usize + 8 * k as usize;
    let end = at + 8;
    rows::word_of(&links[at..end], 0)
}

// Writes the links of a to the radios that its row marks from word `first` on, until the block is full.
fn put_words(part: &mut [u8], from: usize, links: &[u8], a: u32, first: u32) -> Cursor
    requires { (length part.old ≡ block_bytes) × Place from × (first ≤ 8) × RowThere a links.now }
    ensures put { LinksPut (links_to a (row_from links.now a first)) from part.old part.new result.at
        (row_left links.now a result.k result.first result.rest) }
    ensures stopped { RowStopped links.now result.at a result.k result.first result.rest × Going result.row a result.k result.first }
{
    let mut at = from;
    for k in first..rows::ROW_WORDS {
        let put = put_bits(part, at, a, rows::WORD_BITS * k, row_word(links, a, k));
        at = put.at;
        if put.rest != 0 {
            return Cursor {
                at,
                row: a,
                k,
                first: rows::WORD_BITS * k,
                rest: put.rest,
            };
        }
    }
    Cursor {
        at,
        row: a,
        k: rows::ROW_WORDS - 1,
        first: 0,
        rest: 0,
    }
}

// Writes what a cursor leaves of its row, until the block is full.
fn put_row(part: &mut [u8], links: &[u8], c: Cursor) -> Cursor
    requires { (length part.old ≡ block_bytes) × Place c.at × (c.k < 8) × (c.first ≤ max_radios) × RowThere c.row links.now }
    ensures put { LinksPut (row_left links.now c.row c.k c.first c.rest) c.at part.old
        part.new result.at (row_left links.now c.row result.k result.first result.rest) }
    ensures stopped { RowStopped links.now result.at c.row result.k result.first result.rest × Going result.row c.row result.k result.first }
{
    let own = put_bits(part, c.at, c.row, c.first, c.rest);
    if own.rest != 0 {
        return Cursor {
            at: own.at,
            rest: own.rest,
            ..c
        };
    }
    put_words(part, own.at, links, c.row, c.k + 1)
}

// The cursor before the links of row a to the radios above it: the bits up to its own are shifted out of its word.
fn row_start(links: &[u8], a: u32, at: usize) -> Cursor
    requires { RowThere a links.now }
    ensures started { row_left links.now a result.k result.first result.rest ≡ links_above links.now a }
    ensures there { (result.at ≡ at) × (result.row ≡ a) × (result.k < 8) × (result.first ≤ max_radios) }
{
    let k = a / rows::WORD_BITS;
    Cursor {
        at,
        row: a,
        k,
        first: a + 1,
        rest: row_word(links, a, k) >> (a % rows::WORD_BITS) >> 1,
    }
}

// Writes the links that the rows from row `first` on mark, until the block is full, and comes back with where the next one is.
fn put_rows(part: &mut [u8], from: usize, n: u32, links: &[u8], first: u32) -> Cursor
    requires { (length part.old ≡ block_bytes) × Place from × (first ≤ n) × RowsThere n links.now }
    ensures put { LinksPut (links_from n links.now first 0) from part.old part.new result.at
        (links_left n links.now result.row result.k result.first result.rest) }
    ensures stopped { NextLink n links.now result.at result.row result.k result.first result.rest }
{
    let mut at = from;
    for a in first..n {
        let put = put_row(part, links, row_start(links, a, at));
        at = put.at;
        if put.rest != 0 {
            return put;
        }
    }
    Cursor {
        at,
        row: n,
        k: rows::ROW_WORDS - 1,
        first: 0,
        rest: 0,
    }
}

// Writes the links that a cursor leaves into the payload, as many as a block has, and comes back with where the next one is.
fn put_links(part: &mut [u8], n: u32, links: &[u8], c: Cursor) -> Cursor
    requires { (length part.old ≡ block_bytes) × (c.at ≡ 4) × (c.row < n) × (c.k < 8) × (c.first ≤ max_radios) × RowsThere n links.now }
    ensures put { LinksPut (links_left n links.now c.row c.k c.first c.rest) 4 part.old
        part.new result.at (links_left n links.now result.row result.k result.first result.rest) }
    ensures stopped { NextLink n links.now result.at result.row result.k result.first result.rest }
{
    let own = put_row(part, links, c);
    if own.rest != 0 {
        return own;
    }
    put_rows(part, own.at, n, links, c.row + 1)
}

// A block of kind 2: the links that a cursor leaves, as many as it has room for. Comes back with where it ends and the next link is.
fn fill_links(part: &mut [u8], index: u32, n: u32, links: &[u8], c: Cursor) -> Cursor
    requires { (length part.old ≡ block_bytes) × (c.row < n) × (c.k < 8) × (c.first ≤ max_radios) × RowsThere n links.now }
    ensures filled { LinksFilled index (links_left n links.now c.row c.k c.first c.rest) part.new result.at
        (links_left n links.now result.row result.k result.first result.rest) }
    ensures stopped { NextLink n links.now result.at result.row result.k result.first result.rest }
{
    part[0] = Kind::Links.byte();
    part[1] = 0;
    put_word(part, 2, index);
    let from = Cursor {
        at: layout::HEAD,
        ..c
    };
    let next = put_links(part, n, links, from);
    let end = next.at;
    fill(&mut part[end..], &0);
    close_block(part);
    next
}

// Where the links end: the number of the block after them, and how many they are.
#[derive(Clone, Copy)]
struct Ended {
    blocks: u32,
    count: u32,
}

// Fills the blocks of links from block `first` on, each through its own part of the buffer; all other bytes keep their content. A full block
// takes no link: so the first one is found.
fn fill_link_blocks(first: u32, n: u32, links: &[u8], buffer: &mut [u8]) -> Ended
    requires { LinksFit first n links.now (length buffer.old) }
    ensures { AllLinksFilled first (links_from n links.now 0 0) buffer.old buffer.new result.blocks result.count }
{
    let mut c = put_rows(&mut buffer[0..layout::BLOCK], layout::BODY, n, links, 0);
    let mut i = first;
    let mut count: u32 = 0;
    while c.row < n {
        let at = layout::BLOCK * i as usize;
        let end = at + layout::BLOCK;
        c = fill_links(&mut buffer[at..end], i, n, links, c);
        count += ((c.at - layout::HEAD) / 4) as u32;
        i += 1;
    }
    Ended { blocks: i, count }
}

// Block i of the image with this header, of the ones before its links.
fn fill_block(part: &mut [u8], i: u32, header: Header, order: &[u16])
    requires { (length part.old ≡ block_bytes) × (length order.now ≡ header.radios) ×
        (i ≤ order_blocks header.radios) × (header.radios ≤ max_radios) }
    ensures { part.new ≡ front_block header.radios header.links order.now i }
{
    if i == 0 {
        fill_counts(part, header);
        return;
    }
    fill_order(part, i, order, ENTRIES * (i as usize - 1));
}

// Fills the blocks before the links, each through its own part of the buffer; bytes past them keep their content.
fn fill_blocks(blocks: u32, header: Header, order: &[u16], buffer: &mut [u8])
    requires { (block_bytes * blocks ≤ length buffer.old) × (length order.now ≡ header.radios) ×
        (blocks ≡ 1 + order_blocks header.radios) × (header.radios ≤ max_radios) }
    ensures { buffer.new ≡ flat_map (front_block header.radios header.links order.now) (range 0 blocks)
        ++ drop (block_bytes * blocks) buffer.old }
{
    for i in 0..blocks {
        let at = layout::BLOCK * i as usize;
        let end = at + layout::BLOCK;
        fill_block(&mut buffer[at..end], i, header, order);
    }
}

// Whether a buffer of this length holds the image. The links are counted only where it might not: where it is shorter than the image
// of n radios with as many links as a site may have.
fn has_room(n: u32, links: &[u8], bytes: usize) -> bool
    requires { RowsListed n links.now max_neighbours × (length (links_from n links.now 0 0) ≤ 20 * n) }
    ensures { result ≡ leb (block_bytes * block_count n (length (links_from n links.now 0 0))) bytes }
{
    let most = Site::NEIGHBOURS / 2 * n;
    if layout::BLOCK * layout::block_count(n, most) as usize <= bytes {
        return true;
    }
    let mut list = [0u16; Site::NEIGHBOURS as usize];
    let count = link_list::count_links(n, links, &mut list);
    layout::BLOCK * layout::block_count(n, count) as usize <= bytes
}

// Writes the image of sound tables in front of the buffer; the value is its length in bytes, and bytes past it keep their
// content. Refused by 1 to 3 and 9: then the buffer keeps its content.
pub fn write(t: &Lent, buffer: &mut [u8]) -> Result<u32, Refusal>
    ensures { WriteContract t.now.radios (read_of t.now) buffer.old (value_reply result) buffer.new }
{
    if let Err(refusal) = soundness::ask(t, true) {
        return Err(refusal);
    }
    if !has_room(t.radios, t.links, buffer.len()) {
        return Err(Refusal::ImageSize);
    }
    let first = 1 + layout::blocks_for(t.radios, layout::ENTRIES);
    let ended = fill_link_blocks(first, t.radios, t.links, buffer);
    let header = Header {
        radios: t.radios,
        links: ended.count,
    };
    fill_blocks(first, header, t.order, buffer);
    Ok(layout::BLOCK as u32 * ended.blocks)
}
