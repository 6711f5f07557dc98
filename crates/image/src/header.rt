// What block 0 of an image says, read once and handed on.
ghost use Rattle.std.specs.Prelude.{◌≤◌};
ghost use Rattle.lists.specs.Kit.{length};
ghost use Rattle.mesh.specs.Image.{block_bytes};
ghost use Rattle.image.specs.Header.{HeaderOf};

use super::{bytes, layout};

// How many radios there are, and how many links.
#[derive(Clone, Copy)]
pub struct Header {
    pub radios: u32,
    pub links: u32,
}

// The header of an image that has its block 0.
pub fn header_of(image: &[u8]) -> Header
    requires { block_bytes ≤ length image.now }
    ensures { HeaderOf image.now result }
{
    Header {
        radios: bytes::word_at(image, layout::RADIOS_AT),
        links: bytes::word_at(image, layout::LINKS_AT),
    }
}
