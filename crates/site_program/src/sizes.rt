// How long inputs and texts can be, worked out from the limits of a site and the layout of an image.
use image::layout;
use mesh::Site;

// The most links of a site.
const LINKS: usize = Site::RADIOS as usize * Site::NEIGHBOURS as usize / 2;

// The most blocks of an image: block 0, the ones of the order, the ones of the links.
const BLOCKS: usize = 1
    + (Site::RADIOS as usize + layout::ENTRIES as usize - 1) / layout::ENTRIES as usize
    + (LINKS + layout::LINKS as usize - 1) / layout::LINKS as usize;

// The bytes of the longest image.
pub(crate) const IMAGE_BYTES: usize = BLOCKS * layout::BLOCK;

// The front of an input: any image whole, and a block more, by which a longer input is told.
pub(crate) const FRONT_BYTES: usize = IMAGE_BYTES + layout::BLOCK;

// The bytes of `radios 512` and of `up 510 511`, each with its line feed.
const LINE_BYTES: usize = 11;

// The bytes of the longest text of a verb, a script: its first line, and a line for each link.
pub(crate) const TEXT_BYTES: usize = LINE_BYTES * (1 + LINKS);

// The bytes of a site's largest links table.
pub(crate) const TABLE_BYTES: usize = Site::ROW_BYTES * Site::RADIOS as usize;
