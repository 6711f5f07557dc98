// An image that differs from a good one in the neighbours of one radio alone.
use super::{changed, parts, reading, sites, sizes, writing};
use std::io;

// Radio k + 1 linked to the k radios below k, and radio k to k + 2: all numbers are 1.
fn image_of(k: u32, many: usize) -> writing::Buffer {
    let mut links = [0u8; reading::LINKS];
    let mut order = [0u16; reading::RADIOS];
    let numbers = [1u8; reading::RADIOS];
    let last = k.wrapping_add(2);
    sites::put_star(&mut links, k, k.wrapping_add(1));
    sites::put_link(&mut links, k, last);
    sites::put_order(&mut order, false, last, many);
    writing::image_of(&parts::lent(
        (many % 1024) as u32,
        parts::front(&links, 64 * (many % 1024)),
        parts::front(&numbers, many),
        parts::front(&order, many),
    ))
}

// Makes the last of the k + 1 links lead to radio k + 1, which then has k + 1 neighbours.
fn changed_image(k: u32, many: usize) -> changed::Image {
    let at = 1030 + 4 * k as usize;
    let end = (k.wrapping_add(1) % 256) as u8;
    changed::with(&image_of(k, many), at, end, at, end, true)
}

// Reads the changed image, with the n around too.
pub(crate) fn try_neighbours(rt: &impl Print, k: u32) -> io::Result<()> {
    let many = (k % 1024) as usize + 3;
    let image = changed_image(k, many);
    reading::try_read(rt, many as u32, 64 * many, many, many, &image)?;
    sizes::try_around(rt, many as u32, &image)
}
