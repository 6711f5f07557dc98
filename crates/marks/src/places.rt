// One place of the store: a name, an image and zeros to its end.
ghost use Rattle.std.specs.Prelude.{◌≡◌, ◌<◌, ◌^◌};
ghost use Rattle.lists.specs.Kit.{true, length, drop};
ghost use Rattle.mesh.specs.Limits.{size_good};
ghost use Rattle.mesh.specs.Marks.{name_bytes, place_bytes, image_size, is_mark};

use super::{names, zeros};
use image::{header, layout};
use image_reader::reader;

pub const NAME: usize = 8;

// A place holds the longest image.
pub const PLACE: usize = NAME + layout::MOST_BLOCKS as usize * layout::BLOCK;

// How many bytes the image of the place has, by its own count of links.
pub fn image_size(n: u32, place: &[u8]) -> usize
    requires { length place.now ≡ place_bytes }
    ensures { (result ≡ image_size n (drop name_bytes place.now)) × (result < 2 ^ 42) }
{
    let header = header::header_of(&place[NAME..]);
    layout::BLOCK * layout::block_count(n, header.links) as usize
}

// Whether the place is a mark: a name, an image of sound tables with n radios, and zeros to its end.
pub(crate) fn is_mark(n: u32, place: &[u8]) -> bool
    requires { (size_good n ≡ true) × (length place.now ≡ place_bytes) }
    ensures { result ≡ is_mark n place.now }
{
    if !names::is_name(&place[..NAME]) {
        return false;
    }
    let end = NAME + image_size(n, place);
    if PLACE < end {
        return false;
    }
    if let Err(_) = reader::ask(n, &place[NAME..end]) {
        return false;
    }
    zeros::are_zeros(&place[end..])
}
