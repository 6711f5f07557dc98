// The site that a run plays on. The struct stands alone: what is said of its lists rests on it.
ghost use Rattle.std.specs.Prelude.{◌≤◌};
ghost use Rattle.mesh.specs.Limits.{max_radios};

use mesh::Site;

// The bytes of a site's largest links table.
pub const LINKS_BYTES: usize = Site::ROW_BYTES * Site::RADIOS as usize;

// A site's radios, and its tables with the one for a call's list, each in front of the largest one.
#[derive(Drop)]
pub struct Board {
    pub radios: u32,
    pub links: [u8; LINKS_BYTES],
    pub numbers: [u8; Site::RADIOS as usize],
    pub order: [u16; Site::RADIOS as usize],
    pub answer: [u16; Site::RADIOS as usize],
    ghost few: { radios ≤ max_radios },
}
