// The layout of an image: its figures, here once, and how many blocks it has.
ghost use Rattle.std.specs.Prelude.{◌≡◌, ◌<◌};
ghost use Rattle.mesh.specs.Image.{blocks_for, block_count};
ghost use Rattle.image.specs.Form.{kind_byte};

use mesh::Site;

// The bytes of a block: its payload stands between its head and its check.
pub const BLOCK: usize = 512;

// The bytes before the payload: kind, zero and index.
pub const HEAD: usize = 4;

pub const PAYLOAD: usize = 504;

// The bytes before the check.
pub const BODY: usize = 508;

// What a block holds: the counts of block 0, entries of the order, or links.
#[derive(Clone, Copy)]
pub enum Kind {
    Counts,
    Order,
    Links,
}

impl Kind {
    // The first byte of a block of this kind.
    pub fn byte(self) -> u8
        ensures { result ≡ kind_byte self }
    {
        match self {
            Kind::Counts => 0,
            Kind::Order => 1,
            Kind::Links => 2,
        }
    }
}

// Where block 0 says how many radios there are, and how many links.
pub const RADIOS_AT: usize = 4;

pub const LINKS_AT: usize = 6;

// Entries of the order in a block of kind 1.
pub const ENTRIES: u32 = 252;

// Links in a block of kind 2.
pub const LINKS: u32 = 126;

// The most links that a site may have: each radio its most neighbours.
pub const MOST_LINKS: u32 = Site::RADIOS * Site::NEIGHBOURS / 2;

// The blocks of the longest image.
pub const MOST_BLOCKS: u32 = 1
    + (Site::RADIOS + ENTRIES - 1) / ENTRIES
    + (MOST_LINKS + LINKS - 1) / LINKS;

// How many blocks hold so many entries, `each` a block.
pub fn blocks_for(entries: u32, each: u32) -> u32
    requires { 0 < each }
    ensures { result ≡ blocks_for entries each }
{
    if entries % each == 0 {
        return entries / each;
    }
    entries / each + 1
}

// How many blocks an image of n radios and m links has.
pub fn block_count(n: u32, m: u32) -> u32
    ensures { result ≡ block_count n m }
{
    1 + blocks_for(n, ENTRIES) + blocks_for(m, LINKS)
}
