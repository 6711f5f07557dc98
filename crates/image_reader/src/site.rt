// Whether the links and the order that an image lists make a sound site, and then the numbers. It is put to the image in place: counts
// over the links, block by block, with a count for each radio. A test of all entries of a table does not stop at the first no:
// the compiler then does many at a time.
ghost use Rattle.std.specs.Prelude.{◌≡◌, ◌&&◌, ◌≤◌, ◌<◌, ◌+◌, ◌*◌};
ghost use Rattle.lists.specs.Kit.{true, [], map, ℕ, max, leb, length, get_or};
ghost use Rattle.lists.specs.Lists.{range, all};
ghost use Rattle.mesh.specs.Limits.{max_radios, max_neighbours};
ghost use Rattle.mesh.specs.Graph.{graph, proper, ascending};
ghost use Rattle.mesh.specs.Orders.{each_once};
ghost use Rattle.mesh.specs.Image.{block_bytes, order_blocks, image_order};
ghost use Rattle.image_reader.specs.Site.{listed_links, Tallied, running_maxima_of, LinksRoom, TallyRoom, OrderCounted};
ghost use Rattle.image_reader.specs.Site.{KOrderDecided, SoundDecided, SiteRoom, SiteDecided};

use super::blocks;
use super::blocks::Last;
use image::header::Header;
use image::layout;
use mesh::Site;

// Whether the first m links of the image have their lower radio first, radios below n, and stand ascending.
fn are_listed(image: &[u8], header: Header) -> bool
    requires { LinksRoom header image.now }
    ensures { result ≡ (proper header.radios (listed_links header image.now) && ascending (listed_links header image.now)) }
{
    let end = layout::blocks_for(header.links, layout::LINKS);
    let mut last = Last { good: true, key: 0 };
    for q in 0..end {
        last = blocks::list_block(image, header, q, last);
    }
    last.good
}

// For each radio below n, how many of the first m links it has, and how many of these lead to a later radio.
fn count_links(image: &[u8], header: Header, places: &[u16], counts: &mut [u16], later: &mut [u16])
    requires room { TallyRoom header image.now (length places.now) (length counts.old) }
    requires later_long { length later.old ≡ header.radios }
    ensures { Tallied header.radios [] 1 (listed_links header image.now) counts.new ×
        Tallied header.radios places.now 0 (listed_links header image.now) later.new }
{
    tables::fill::fill(counts, &0);
    tables::fill::fill(later, &0);
    let end = layout::blocks_for(header.links, layout::LINKS);
    for q in 0..end {
        blocks::count_block(image, header, q, places, counts, later);
    }
}

// For each radio v below n, counts[v] is the number of its links among the first m whose other end w has a rank of which, with
// the slack added, that of v is below.
fn tally(image: &[u8], header: Header, ranks: &[u16], slack: u16, counts: &mut [u16])
    requires { TallyRoom header image.now (length ranks.now) (length counts.old) }
    ensures { Tallied header.radios ranks.now slack (listed_links header image.now) counts.new }
{
    tables::fill::fill(counts, &0);
    let end = layout::blocks_for(header.links, layout::LINKS);
    for q in 0..end {
        blocks::tally_block(image, header, q, ranks, slack, counts);
    }
}

// The image's order, as many entries as `order` has.
fn read_order(image: &[u8], order: &mut [u16])
    requires { (length order.old ≤ max_radios) × (block_bytes * (1 + order_blocks (length order.old)) ≤ length image.now) }
    ensures { order.new ≡ image_order (length order.old) image.now }
{
    let end = layout::blocks_for(order.len() as u32, layout::ENTRIES) as usize;
    for q in 0..end {
        blocks::order_block(image, q, order);
    }
}

// Whether no entry is above the one of `most` at its place.
fn each_at_most(entries: &[u16], most: &[u16]) -> bool
    requires { length entries.now ≤ length most.now }
    ensures { result ≡ all (λ (v : ℕ). leb (get_or entries.now v 0) (get_or most.now v 0))
        (range 0 (length entries.now)) }
{
    let mut all = true;
    for v in 0..entries.len() {
        all = all & (entries[v] <= most[v]);
    }
    all
}

// Whether no count is above the most neighbours that a radio may have.
fn are_few(counts: &[u16]) -> bool
    ensures { result ≡ all (λ (v : ℕ). leb (get_or counts.now v 0) max_neighbours) (range 0 (length counts.now)) }
{
    let mut few = true;
    for count in counts {
        few = few & (*count <= Site::NEIGHBOURS as u16);
    }
    few
}

// The larger of two counts.
fn larger(a: u16, b: u16) -> u16
    ensures { result ≡ max a b }
{
    if a < b { b } else { a }
}

// Gives each radio of the order the greatest count up to it.
fn run_maxima(order: &[u16], counts: &[u16], cores: &mut [u16])
    requires { (each_once (length order.now) order.now ≡ true) × (length order.now ≤ length counts.now) ×
        (length order.now ≤ length cores.old) }
    ensures { map (λ (v : ℕ). get_or cores.new v 0) order.now
        ≡ running_maxima_of (λ (v : ℕ). get_or counts.now v 0) 0 order.now }
{
    let mut top: u16 = 0;
    for radio in order {
        let v = *radio as usize;
        top = larger(top, counts[v]);
        cores[v] = top;
    }
}

// Whether an order that holds each radio once, whose later neighbours are counted, is a k-order of the first m links: along a k-order the
// number is the greatest count of later neighbours so far, and every radio has at least its number of neighbours whose number is not
// below its own. Then `cores` holds the numbers.
fn is_k_order(
    image: &[u8],
    header: Header,
    order: &[u16],
    later: &[u16],
    cores: &mut [u16],
    counts: &mut [u16],
) -> bool
    requires room { TallyRoom header image.now (length cores.old) (length counts.old) }
    requires later_long { length later.now ≡ header.radios }
    requires ascends { ascending (listed_links header image.now) ≡ true }
    requires counted { OrderCounted header.radios (listed_links header image.now) order.now later.now }
    ensures { KOrderDecided (graph header.radios (listed_links header image.now)) order.now cores.new result }
{
    run_maxima(order, later, cores);
    tally(image, header, cores, 1, counts);
    each_at_most(cores, counts)
}

// Whether no radio has too many of the first m links, and the order is a k-order of them. Then `cores` holds the numbers; the places of the
// radios, which only the counting of later neighbours needs, stand in it before.
fn is_sound(
    image: &[u8],
    header: Header,
    order: &[u16],
    cores: &mut [u16],
    counts: &mut [u16],
    later: &mut [u16],
) -> bool
    requires room { TallyRoom header image.now (length cores.old) (length counts.old) }
    requires later_long { length later.old ≡ header.radios }
    requires ascends { ascending (listed_links header image.now) ≡ true }
    requires long { length order.now ≡ header.radios }
    ensures { SoundDecided header.radios (listed_links header image.now) order.now cores.new result }
{
    if !soundness::places_of(order, cores) {
        return false;
    }
    count_links(image, header, cores, counts, later);
    if !are_few(counts) {
        return false;
    }
    is_k_order(image, header, order, later, cores, counts)
}

// Whether the first m links and the order of the image make a sound site of n radios. Then `listed` holds the order and `cores` the
// numbers; else they, and the counts in any case, hold anything.
fn decide(
    image: &[u8],
    header: Header,
    listed: &mut [u16],
    cores: &mut [u16],
    counts: &mut [u16],
    later: &mut [u16],
) -> bool
    requires room { SiteRoom header image.now (length listed.old) (length cores.old) }
    requires scratch { (length counts.old ≡ header.radios) × (length later.old ≡ header.radios) }
    ensures { SiteDecided header image.now listed.new cores.new result }
{
    if !are_listed(image, header) {
        return false;
    }
    read_order(image, listed);
    is_sound(image, header, listed, cores, counts, later)
}

// Whether the links and the order that the image lists make a sound site. Then `listed` holds the order and `cores` the numbers; else they
// hold anything.
pub fn is_site(image: &[u8], header: Header, listed: &mut [u16], cores: &mut [u16]) -> bool
    requires { SiteRoom header image.now (length listed.old) (length cores.old) }
    ensures { SiteDecided header image.now listed.new cores.new result }
{
    let many = header.radios as usize;
    let mut counts = [0u16; Site::RADIOS as usize];
    let mut later = [0u16; Site::RADIOS as usize];
    decide(
        image,
        header,
        listed,
        cores,
        &mut counts[..many],
        &mut later[..many],
    )
}
