// What an input is, by its first bytes: a script or an image.
ghost use Rattle.std.specs.Prelude.{◌≡◌};
ghost use Rattle.site_program.specs.Inputs.{kind_of};

use player::input;

// The word that a script begins with.
const WORD_BYTES: usize = 6;

#[derive(Clone, Copy)]
pub enum Kind {
    Script,
    Image,
}

// A script begins with `radios`. Any other input is read as an image.
pub fn kind_of(front: &[u8]) -> Kind
    ensures { result ≡ kind_of front.now }
{
    let count = input::within(WORD_BYTES, front);
    if tables::fill::is_same(&front[..count], b"radios") {
        Kind::Script
    } else {
        Kind::Image
    }
}
