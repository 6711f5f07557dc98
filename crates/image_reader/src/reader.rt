// The image reader.
ghost use Rattle.std.specs.Prelude.{◌≡◌, ◌≤◌, ◌*◌};
ghost use Rattle.lists.specs.Kit.{ℕ, length, get_or};
ghost use Rattle.mesh.specs.Limits.{row_bytes};
ghost use Rattle.mesh.specs.Lent.{lent};
ghost use Rattle.image_reader.specs.Reading.{alone_refusal, SourceRoom};
ghost use Rattle.calls.specs.Answers.{call_number};
ghost use Rattle.calls.specs.Questions.{lengths_of, read_refusal};
ghost use Rattle.calls.specs.CallContracts.{ReadContract};
ghost use Rattle.tables.specs.Widths.{values};
ghost use Rattle.calls.specs.Chains.{source_refusal};

use super::{source, table};
use calls::Refusal;
use image::header::Header;
use mesh::{Lent, Site};

// The numbers worked out, as bytes.
fn put_numbers(cores: &[u16], numbers: &mut [u8])
    requires { length numbers.old ≤ length cores.now }
    ensures { numbers.new ≡ values 8 (λ (v : ℕ). get_or cores.now v 0) (length numbers.old) }
{
    for v in 0..numbers.len() {
        numbers[v] = (cores[v] % 256) as u8;
    }
}

// Reads an image that is opened, with the tables' lengths right, so that only questions 15 and 11 are left. Refused by 15 and 11.
fn read_site(
    n: u32,
    header: Header,
    links: &mut [u8],
    numbers: &mut [u8],
    order: &mut [u16],
    image: &[u8],
    listed: &mut [u16],
    cores: &mut [u16],
) -> Result<(), Refusal>
    requires room { SourceRoom n header image.now (length listed.old) (length cores.old) }
    requires sized { (length links.old ≡ row_bytes * n) × (length numbers.old ≡ n) × (length order.old ≡ n) }
    requires asked { read_refusal n (lengths_of (lent links.old numbers.old order.old)) image.now ≡ source_refusal n image.now }
    ensures { ReadContract n image.now (lent links.old numbers.old order.old) (call_number result)
        (lent links.new numbers.new order.new) }
{
    if let Err(refusal) = source::ask(n, header, image, listed, cores) {
        return Err(refusal);
    }
    table::put_links(image, header, links);
    put_numbers(cores, numbers);
    tables::fill::copy(order, listed);
    Ok(())
}

// Reads an image of n radios into the tables: links and order as the image lists them, the numbers worked out. Refused by 1, 2, 9,
// 10, 15 and 11: then every table keeps its content.
pub fn read(
    n: u32,
    links: &mut [u8],
    numbers: &mut [u8],
    order: &mut [u16],
    image: &[u8],
) -> Result<(), Refusal>
    ensures { ReadContract n image.now (lent links.old numbers.old order.old) (call_number result)
        (lent links.new numbers.new order.new) }
{
    let t = Lent {
        radios: n,
        links,
        numbers,
        order,
    };
    if let Err(refusal) = tables::sizes::ask(&t) {
        return Err(refusal);
    }
    let header = match source::open(image) {
        Ok(header) => header,
        Err(refusal) => return Err(refusal),
    };
    let many = header.radios as usize;
    let mut listed = [0u16; Site::RADIOS as usize];
    let mut cores = [0u16; Site::RADIOS as usize];
    read_site(
        n,
        header,
        links,
        numbers,
        order,
        image,
        &mut listed[..many],
        &mut cores[..many],
    )
}

// An image alone, with no tables to read it into: refused by 1 where n is no size, else by 9, 10, 15 and 11; accepted, it is the image of
// sound tables with n radios.
pub fn ask(n: u32, image: &[u8]) -> Result<(), Refusal>
    ensures { call_number result ≡ alone_refusal n image.now }
{
    if !tables::sizes::is_size(n) {
        return Err(Refusal::Size);
    }
    let header = match source::open(image) {
        Ok(header) => header,
        Err(refusal) => return Err(refusal),
    };
    let many = header.radios as usize;
    let mut listed = [0u16; Site::RADIOS as usize];
    let mut cores = [0u16; Site::RADIOS as usize];
    source::ask(n, header, image, &mut listed[..many], &mut cores[..many])
}
