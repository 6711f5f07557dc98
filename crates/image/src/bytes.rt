// The bytes of an image, read in place: numbers of two and of four bytes.
ghost use Rattle.std.specs.Prelude.{◌≡◌, ◌≤◌, ◌<◌, ◌+◌, ◌*◌};
ghost use Rattle.lists.specs.Kit.{length};
ghost use Rattle.mesh.specs.Image.{word_at};

// The two bytes from `at` on as one number, lowest byte first.
pub fn word_at(image: &[u8], at: usize) -> u32
    requires { at + 2 ≤ length image.now }
    ensures { (result ≡ word_at image.now at) × (result < 65536) }
{
    image[at] as u32 + 256 * image[at + 1] as u32
}

// The four bytes from `at` on as one number, lowest byte first: of a link its low half is the lower radio, its high half the higher one.
pub fn long_at(image: &[u8], at: usize) -> u32
    requires { at + 4 ≤ length image.now }
    ensures { (result ≡ word_at image.now at + 65536 * word_at image.now (at + 2)) ×
        (word_at image.now at < 65536) × (word_at image.now (at + 2) < 65536) }
{
    image[at] as u32
        + 256 * image[at + 1] as u32
        + 65536 * image[at + 2] as u32
        + 16777216 * image[at + 3] as u32
}
