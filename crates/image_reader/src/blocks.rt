// The blocks of links of an image, each in one loop: where its links stand is worked out once a block. The order's blocks likewise.
ghost use Rattle.std.specs.Prelude.{◌≡◌, ◌≤◌, ◌<◌, ◌+◌, ◌*◌};
ghost use Rattle.lists.specs.Kit.{[], min, cond, ltb, length, get_or, set};
ghost use Rattle.mesh.specs.Limits.{max_radios};
ghost use Rattle.mesh.specs.Image.{block_bytes, block_entries, block_links};
ghost use Rattle.image_reader.specs.Site.{links_before, passed, key_of, next_key, Listed, Tallied, count_link, OrderRead};
ghost use Rattle.image_reader.specs.Site.{LinkFits, LinkThere, count_at, LinksRoom, TallyRoom, PartIs};

use image::header::Header;
use image::{bytes, layout};

// The links of a block: where the first one stands, and how many there are.
#[derive(Clone, Copy)]
pub struct Part {
    pub at: usize,
    pub count: usize,
}

// The links of block q of the blocks of links, in an image of n radios and m links.
pub fn part_of(header: Header, q: u32) -> Part
    requires { block_links * q < header.links }
    ensures { PartIs header q result }
{
    let orders = layout::blocks_for(header.radios, layout::ENTRIES) as usize;
    let left = header.links - layout::LINKS * q;
    Part {
        at: layout::BLOCK * (1 + orders + q as usize) + layout::HEAD,
        count: tables::fill::least(layout::LINKS as usize, left as usize),
    }
}

// The key of a link whose bytes are x: its lower radio comes first.
fn key_of(x: u32) -> u32
    ensures { result ≡ key_of x }
{
    65536 * (x % 65536) + x / 65536
}

// Whether the link whose bytes are x may stand after the one with the key `last`: its lower radio first, radios below n, ascending.
fn is_next(n: u32, last: u32, x: u32) -> bool
    ensures { result ≡ next_key n last (key_of x) }
{
    (x % 65536 < x / 65536) & (x / 65536 < n) & (last < key_of(x))
}

// Whether all links so far are listed well, and the key of the last one. It is no option: after a link that is not listed well the keys go on
// too, so that no branch keeps the compiler from testing many links at a time.
#[derive(Drop)]
pub(crate) struct Last {
    pub(crate) good: bool,
    pub(crate) key: u32,
}

// Goes on over the links of block q. It does not stop at the first that is not listed well: the compiler then tests many at a time.
pub(crate) fn list_block(image: &[u8], header: Header, q: u32, last: Last) -> Last
    requires room { LinksRoom header image.now }
    requires there { block_links * q < header.links }
    requires before { Listed header image.now last (passed header.links q) }
    ensures { Listed header image.now result (passed header.links (q + 1)) }
{
    let part = part_of(header, q);
    let mut good = last.good;
    let mut key = last.key;
    for i in 0..part.count {
        let x = bytes::long_at(image, part.at + 4 * i);
        good = good & is_next(header.radios, key, x);
        key = key_of(x);
    }
    Last { good, key }
}

// Counts v once more where `on`, without a branch: no processor foretells which end of a link comes first.
fn bump(counts: &mut [u16], v: u32, on: bool)
    requires { (v < length counts.old) × (get_or counts.old v 0 < 65535) }
    ensures { counts.new ≡ set counts.old v (get_or counts.old v 0 + cond on 1 0) }
{
    let at = v as usize;
    counts[at] = counts[at] + on as u16;
}

// Whether the rank of v is below that of w with the slack added.
fn is_below(ranks: &[u16], v: u32, w: u32, slack: u16) -> bool
    requires { (v < length ranks.now) × (w < length ranks.now) }
    ensures { result ≡ ltb (get_or ranks.now v 0) (get_or ranks.now w 0 + slack) }
{
    let x = ranks[v as usize];
    let y = ranks[w as usize];
    (x as u32) < y as u32 + slack as u32
}

// Counts the link a-b at both ends.
fn count_ends(counts: &mut [u16], a: u32, b: u32)
    requires { LinkFits a b counts.old }
    ensures { counts.new ≡ count_link [] 1 a b counts.old }
{
    bump(counts, a, true);
    bump(counts, b, true);
}

// Counts the link a-b at each end whose rank is below that of the other with the slack added.
fn count_below(counts: &mut [u16], ranks: &[u16], slack: u16, a: u32, b: u32)
    requires { LinkFits a b counts.old × (b < length ranks.now) }
    ensures { counts.new ≡ count_link ranks.now slack a b counts.old }
{
    bump(counts, a, is_below(ranks, a, b, slack));
    bump(counts, b, is_below(ranks, b, a, slack));
}

// Counts the link that stands at `at`: at both ends, and in `later` at the end that comes first.
fn count_at(image: &[u8], at: usize, places: &[u16], counts: &mut [u16], later: &mut [u16])
    requires { LinkThere image.now at (length places.now) counts.old × LinkThere image.now at (length places.now) later.old }
    ensures { (counts.new ≡ count_at [] 1 image.now at counts.old) ×
        (later.new ≡ count_at places.now 0 image.now at later.old) }
{
    let a = bytes::word_at(image, at);
    let b = bytes::word_at(image, at + 2);
    count_ends(counts, a, b);
    count_below(later, places, 0, a, b);
}

// Counts the link that stands at `at`, at each end whose rank is below that of the other with the slack added.
fn tally_at(image: &[u8], at: usize, ranks: &[u16], slack: u16, counts: &mut [u16])
    requires { LinkThere image.now at (length ranks.now) counts.old }
    ensures { counts.new ≡ count_at ranks.now slack image.now at counts.old }
{
    let a = bytes::word_at(image, at);
    let b = bytes::word_at(image, at + 2);
    count_below(counts, ranks, slack, a, b);
}

// Counts on over the links of block q, as `site::count_links` says. The links of a radio stand together, so that each waits for the count
// that the last one stored: the two halves of the block go side by side, and neither waits for the other.
pub(crate) fn count_block(
    image: &[u8],
    header: Header,
    q: u32,
    places: &[u16],
    counts: &mut [u16],
    later: &mut [u16],
)
    requires room { TallyRoom header image.now (length places.now) (length counts.old) }
    requires later_long { length later.old ≡ header.radios }
    requires there { block_links * q < header.links }
    requires ends { Tallied header.radios [] 1 (links_before header q image.now) counts.old }
    requires before { Tallied header.radios places.now 0 (links_before header q image.now) later.old }
    ensures { Tallied header.radios [] 1 (links_before header (q + 1) image.now) counts.new ×
        Tallied header.radios places.now 0 (links_before header (q + 1) image.now) later.new }
{
    let part = part_of(header, q);
    let half = part.count / 2;
    for i in 0..half {
        count_at(image, part.at + 4 * i, places, counts, later);
        count_at(image, part.at + 4 * (half + i), places, counts, later);
    }
    if part.count <= half + half {
        return;
    }
    count_at(image, part.at + 4 * (half + half), places, counts, later);
}

// Counts on over the links of block q, as `site::tally` says; its two halves side by side, as in `count_block`. The two are not one function
// over a closure: it would have to be told what the closure has counted by each turn of both halves, which is longer than the loop.
pub(crate) fn tally_block(
    image: &[u8],
    header: Header,
    q: u32,
    ranks: &[u16],
    slack: u16,
    counts: &mut [u16],
)
    requires room { TallyRoom header image.now (length ranks.now) (length counts.old) }
    requires there { block_links * q < header.links }
    requires before { Tallied header.radios ranks.now slack (links_before header q image.now) counts.old }
    ensures { Tallied header.radios ranks.now slack (links_before header (q + 1) image.now) counts.new }
{
    let part = part_of(header, q);
    let half = part.count / 2;
    for i in 0..half {
        tally_at(image, part.at + 4 * i, ranks, slack, counts);
        tally_at(image, part.at + 4 * (half + i), ranks, slack, counts);
    }
    if part.count <= half + half {
        return;
    }
    tally_at(image, part.at + 4 * (half + half), ranks, slack, counts);
}

// Reads the entries of block q of the order's blocks.
pub(crate) fn order_block(image: &[u8], q: usize, order: &mut [u16])
    requires room { (length order.old ≤ max_radios) × (block_entries * q < length order.old) ×
        (block_bytes * (1 + q) + block_bytes ≤ length image.now) }
    requires before { OrderRead image.now (min (length order.old) (block_entries * q)) order.old }
    ensures { OrderRead image.now (min (length order.old) (block_entries * (q + 1))) order.new }
{
    let at = layout::BLOCK * (1 + q) + layout::HEAD;
    let from = layout::ENTRIES as usize * q;
    let count = tables::fill::least(layout::ENTRIES as usize, order.len() - from);
    for i in 0..count {
        let x = bytes::word_at(image, at + 2 * i);
        order[from + i] = (x % 65536) as u16;
    }
}
