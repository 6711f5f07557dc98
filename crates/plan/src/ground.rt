// What a walk goes over, and where it stands.
ghost use Rattle.std.specs.Prelude.{ℕ, ◌<◌, get_or};

use super::walk::{Part, Rise};

// The link that goes up, the part, the links, the order from the part's first place on, and the radios' places.
#[derive(Clone, Copy)]
pub(crate) struct Ground<'a> {
    pub(crate) rise: Rise,
    pub(crate) part: Part,
    pub(crate) links: &'a [u8],
    pub(crate) tail: &'a [u16],
    pub(crate) places: &'a [u16],
    ghost place_entries: { (i : ℕ) → get_or places.now i 0 < 65536 },
}

// A place of the level, by the radios' numbers and places.
#[derive(Clone, Copy)]
pub(crate) struct Spot<'a> {
    pub(crate) level: u8,
    pub(crate) place: u16,
    pub(crate) numbers: &'a [u8],
    pub(crate) places: &'a [u16],
    ghost place_entries: { (i : ℕ) → get_or places.now i 0 < 65536 },
}
