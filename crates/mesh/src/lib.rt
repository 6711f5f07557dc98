// What a site is: its description with the three limits, its tables as a call is lent them to read, and the record of a shell tree's node.
// The definitions of document 01 are in specs/, their theory in proofs/. Nothing is refused here: there is no call.
#![tactic(auto)]

ghost use Rattle.std.specs.Prelude.{◌≡◌, ◌<◌};
ghost use Rattle.lists.specs.Kit.{ℕ, get_or};
ghost use Rattle.mesh.specs.Limits.{max_radios, max_neighbours, row_bytes};

// The description of a site: how many radios it has.
#[derive(Clone, Copy)]
pub struct Site {
    pub radios: u32,
}

impl Site {
    pub const RADIOS: u32 = 512;

    pub const NEIGHBOURS: u32 = 40;

    pub const ROW_BYTES: usize = 64;

    // The description of a site with no radios, which question 1 refuses.
    pub fn empty() -> Self
        ensures { result.radios ≡ 0 }
    {
        Self { radios: 0 }
    }

    // The most radios that a site may have.
    pub fn radio_limit() -> u32
        ensures { result ≡ max_radios }
    {
        Site::RADIOS
    }

    // The most neighbours that a radio may have.
    pub fn neighbour_limit() -> u32
        ensures { result ≡ max_neighbours }
    {
        Site::NEIGHBOURS
    }

    // The bytes of a row of the links table.
    pub fn row_length() -> usize
        ensures { result ≡ row_bytes }
    {
        Site::ROW_BYTES
    }
}

// Links, numbers and order of so many radios, as a call is lent them to read. What their entries may be is said of every such struct.
#[derive(Clone, Copy)]
pub struct Lent<'a> {
    pub radios: u32,
    pub links: &'a [u8],
    pub numbers: &'a [u8],
    pub order: &'a [u16],
    ghost link_bytes: { (i : ℕ) → get_or links.now i 0 < 256 },
    ghost number_bytes: { (i : ℕ) → get_or numbers.now i 0 < 256 },
    ghost order_entries: { (i : ℕ) → get_or order.now i 0 < 65536 },
}

// A node of the shell tree.
#[repr(C)]
#[derive(Clone, Copy)]
pub struct Node {
    pub name: u16,
    pub level: u16,
    pub parent: u16,
}
