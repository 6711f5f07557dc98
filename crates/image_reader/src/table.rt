// The links table that an image lists, written block by block. The links are known to be proper, so a bit is set without asking whether it
// is in the table, as `rows::put_bit` does: that is a tenth of reading a dense image.
ghost use Rattle.std.specs.Prelude.{◌≡◌, ◌≤◌, ◌<◌, ◌+◌, ◌*◌};
ghost use Rattle.lists.specs.Kit.{true, length};
ghost use Rattle.mesh.specs.Limits.{max_radios, row_bytes};
ghost use Rattle.mesh.specs.Graph.{graph};
ghost use Rattle.mesh.specs.Tables.{put_bit, put_link, links_table};
ghost use Rattle.mesh.specs.Image.{block_links};
ghost use Rattle.image_reader.specs.Site.{listed_links, links_before, TallyRoom};

use super::blocks;
use image::header::Header;
use image::{bytes, layout};
use mesh::Site;

// Sets bit b of row a of a table that has the row.
fn set_bit(links: &mut [u8], a: u32, b: u32)
    requires { (a < max_radios) × (b < max_radios) × (row_bytes * a + row_bytes ≤ length links.old) }
    ensures { links.new ≡ put_bit true a b links.old }
{
    let bit = Site::RADIOS * a + b;
    let at = (bit / 8) as usize;
    links[at] |= 1 << (bit % 8);
}

// Sets both bits of the link a-b, a being the lower radio, in a table that has the rows of both.
fn set_link(links: &mut [u8], a: u32, b: u32)
    requires { (a < b) × (b < max_radios) × (row_bytes * b + row_bytes ≤ length links.old) }
    ensures { links.new ≡ put_link true a b links.old }
{
    set_bit(links, a, b);
    set_bit(links, b, a);
}

// Marks the links of block q in the links table.
fn mark_block(image: &[u8], header: Header, q: u32, links: &mut [u8])
    requires room { TallyRoom header image.now header.radios header.radios }
    requires there { block_links * q < header.links }
    requires before { links.old ≡ links_table (graph header.radios (links_before header q image.now)) }
    ensures { links.new ≡ links_table (graph header.radios (links_before header (q + 1) image.now)) }
{
    let part = blocks::part_of(header, q);
    for i in 0..part.count {
        let at = part.at + 4 * i;
        let a = bytes::word_at(image, at);
        let b = bytes::word_at(image, at + 2);
        set_link(links, a, b);
    }
}

// The links table of the first m links of the image.
pub(crate) fn put_links(image: &[u8], header: Header, links: &mut [u8])
    requires { TallyRoom header image.now header.radios header.radios × (length links.old ≡ row_bytes * header.radios) }
    ensures { links.new ≡ links_table (graph header.radios (listed_links header image.now)) }
{
    tables::fill::fill(links, &0);
    let end = layout::blocks_for(header.links, layout::LINKS);
    for q in 0..end {
        mark_block(image, header, q, links);
    }
}
