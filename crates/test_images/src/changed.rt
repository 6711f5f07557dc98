// An image of 3 blocks with one or two bytes changed, as it is and with the check of its block mended.
use image::checks;

// Its bytes.
pub(crate) const BYTES: usize = 1536;

pub(crate) type Image = [u8; BYTES];

// Writes a byte; past the end nothing changes.
fn put_byte(image: &mut Image, at: usize, x: u8) {
    if at < BYTES {
        image[at] = x;
    }
}

// Gives the block that has byte `at` its check, lowest byte first.
fn mend(image: &mut Image, at: usize) {
    if BYTES <= at {
        return;
    }
    let start = at - at % 512;
    let end = start + 512;
    let sum = checks::check_sum(&image[start..end]);
    let check = &mut image[end - 4..end];
    check.copy_from_slice(&sum.to_le_bytes());
}

// The good image with bytes x and y; mended, with the check of the block that has byte `at`.
pub(crate) fn with(good: &[u8], at: usize, x: u8, other: usize, y: u8, mended: bool) -> Image {
    let mut image = [0u8; BYTES];
    let count = good.len().min(BYTES);
    let front = &mut image[..count];
    front.copy_from_slice(&good[..count]);
    put_byte(&mut image, at, x);
    put_byte(&mut image, other, y);
    if mended {
        mend(&mut image, at);
    }
    image
}
