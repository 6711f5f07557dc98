// Of which tables the bytes are the image: questions 15 and 11, decided together from the n that the header says.
ghost use Rattle.std.specs.Prelude.{◌≡◌};
ghost use Rattle.lists.specs.Kit.{length};
ghost use Rattle.calls.specs.Answers.{call_number};
ghost use Rattle.image_reader.specs.Reading.{OpenedAs, ImageRoom, ImageDecided, SourceRoom, SourceDecided};

use super::site;
use calls::Refusal;
use image::header::Header;
use image::{checks, form, header};

// The header, where questions 9 and 10 got yes and it says a size; 11 where it says none.
pub(crate) fn open(image: &[u8]) -> Result<Header, Refusal>
    ensures { OpenedAs image.now result }
{
    if let Err(refusal) = checks::ask(image) {
        return Err(refusal);
    }
    let header = header::header_of(image);
    if !tables::sizes::is_size(header.radios) {
        return Err(Refusal::Image);
    }
    Ok(header)
}

// Question 11, where 10 got yes: whether the bytes are the image of some sound tables with the header's n. Then `listed` holds its order
// and `cores` its numbers; else they hold anything.
fn is_image(image: &[u8], header: Header, listed: &mut [u16], cores: &mut [u16]) -> bool
    requires { ImageRoom header image.now (length listed.old) (length cores.old) }
    ensures { ImageDecided header.radios image.now listed.new cores.new result }
{
    if !form::is_formed(image, header) {
        return false;
    }
    site::is_site(image, header, listed, cores)
}

// Refused by 11 for the image of no sound tables, by 15 for one of another size than n. Accepted, `listed` holds its order and `cores` its
// numbers; else they hold anything.
pub(crate) fn ask(
    n: u32,
    header: Header,
    image: &[u8],
    listed: &mut [u16],
    cores: &mut [u16],
) -> Result<(), Refusal>
    requires { SourceRoom n header image.now (length listed.old) (length cores.old) }
    ensures { SourceDecided n image.now listed.new cores.new (call_number result) }
{
    if !is_image(image, header, listed, cores) {
        return Err(Refusal::Image);
    }
    if header.radios != n {
        return Err(Refusal::OtherSize);
    }
    Ok(())
}
