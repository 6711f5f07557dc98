// An image, read into a site's tables.
ghost use Rattle.std.specs.Prelude.{◌≡◌, ◌≤◌};
ghost use Rattle.mesh.specs.Limits.{max_radios};
ghost use Rattle.mesh.specs.Lent.{lent};
ghost use Rattle.site_program.specs.Inputs.{wrong};
ghost use Rattle.site_program.specs.Blocks.{FirstBad};
ghost use Rattle.site_program.specs.Status.{ImageRead};

use super::refusals;
use crate::sizes;
use calls::Refusal;
use image::{form, header, layout};
use std::io::Write;

// How many radios the image says; 1 where that is no size, and then no question but 1 gets another answer.
pub(crate) fn radios(image: &[u8]) -> u32
    ensures { result ≤ max_radios }
{
    if image.len() < layout::BLOCK {
        return 1;
    }
    let n = header::header_of(image).radios;
    if tables::sizes::is_size(n) { n } else { 1 }
}

// The first block that does not pass its check; their count where all pass.
fn bad_block(image: &[u8]) -> usize
    ensures { FirstBad image.now result }
{
    let count = image.len() / layout::BLOCK;
    for i in 0..count {
        if !image::checks::is_good(image, i) {
            return i;
        }
    }
    count
}

// Whether the image says n radios, and has the form that its header says.
fn is_formed(image: &[u8], n: u32) -> bool {
    if image.len() < layout::BLOCK {
        return false;
    }
    let header = header::header_of(image);
    if header.radios != n {
        return false;
    }
    form::is_formed(image, header)
}

// Where the image got "no": its length, a block, its form or its content.
fn say_where<E: Write>(errors: &mut E, n: u32, image: &[u8], refusal: Refusal) -> u32
    ensures { result ≡ wrong }
{
    match refusal {
        Refusal::ImageSize => {
            refusals::say_image(errors, refusal, b"length", image.len() as u64)
        }
        Refusal::ImageCheck => {
            refusals::say_image(errors, refusal, b"block", bad_block(image) as u64)
        }
        _ if is_formed(image, n) => {
            refusals::say_image(errors, refusal, b"order or links of radios", n as u64)
        }
        _ => refusals::say_image(errors, refusal, b"form of an image of radios", n as u64),
    }
}

// Reads the image: the status.
pub(crate) fn read<E: Write>(
    errors: &mut E,
    n: u32,
    image: &[u8],
    links: &mut [u8],
    numbers: &mut [u8],
    order: &mut [u16],
) -> u32
    ensures { ImageRead n image.now (lent links.old numbers.old order.old) result
        (lent links.new numbers.new order.new) }
{
    if sizes::IMAGE_BYTES < image.len() {
        return refusals::say(
            errors,
            b"no script, and longer than the longest image, 44032 bytes",
        );
    }
    match image_reader::reader::read(n, links, numbers, order, image) {
        Ok(()) => 0,
        Err(refusal) => say_where(errors, n, image, refusal),
    }
}
