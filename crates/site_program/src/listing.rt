// Texts of lists: radios in a line, links a line each.
ghost use Rattle.std.specs.Prelude.{◌≡◌, ◌*◌};
ghost use Rattle.lists.specs.Kit.{take};
ghost use Rattle.mesh.specs.Lent.{read_of};
ghost use Rattle.text.specs.Print.{buffer_at, Puts};
ghost use Rattle.site_program.specs.Texts.{radios_line, link_line, pair_lines};
ghost use Rattle.site_program.specs.Said.{BackboneSaid, CoreSaid, LiftSaid, StaircaseSaid};

use calls::Refusal;
use mesh::{Lent, Site};

// Puts the line of a list of radios: the word, and the first `count` entries of the answer table.
fn put_list(word: &[u8], count: u32, answer: &[u16], out: &mut [u8]) -> usize
    ensures { Puts (buffer_at out.old 0) (radios_line word.now (take count answer.now))
        (buffer_at out.new result) }
{
    let many = tables::fill::least(count as usize, answer.len());
    let place = text::put_text(out, 0, word);
    text::put_fields(out, place, &answer[..many])
}

// The backbone, in one line.
pub(crate) fn backbone(t: &Lent, out: &mut [u8]) -> Result<usize, Refusal>
    ensures { BackboneSaid t.now.radios (read_of t.now) out.old result out.new }
{
    let mut answer = [0u16; Site::RADIOS as usize];
    let count = queries::backbone::backbone(t, &mut answer)?;
    Ok(put_list(b"backbone", count, &answer, out))
}

// The connected core of v at level k, in one line.
pub(crate) fn core(t: &Lent, v: u32, k: u32, out: &mut [u8]) -> Result<usize, Refusal>
    ensures { CoreSaid t.now.radios v k (read_of t.now) out.old result out.new }
{
    let mut answer = [0u16; Site::RADIOS as usize];
    let count = queries::cores::core(t, v, k, &mut answer)?;
    Ok(put_list(b"core", count, &answer, out))
}

// Puts the line of a link.
fn put_link(out: &mut [u8], at: usize, a: u64, b: u64) -> usize
    ensures { Puts (buffer_at out.old at) (link_line a b) (buffer_at out.new result) }
{
    let after_word = text::put_text(out, at, b"link");
    let after_a = text::put_field(out, after_word, a);
    let after_b = text::put_field(out, after_a, b);
    text::put_byte(out, after_b, b'\n')
}

// Puts the links of a table, two entries each, a line for each.
fn put_links(out: &mut [u8], table: &[u16]) -> usize
    ensures { Puts (buffer_at out.old 0) (pair_lines table.now) (buffer_at out.new result) }
{
    let mut place: usize = 0;
    for i in 0..table.len() / 2 {
        place = put_link(out, place, table[2 * i] as u64, table[2 * i + 1] as u64);
    }
    place
}

// The most entries of a staircase table.
const ENTRIES: usize = 2 * Site::RADIOS as usize;

// Puts the first `count` links of a table of links, a line for each.
fn put_kept(count: u32, table: &[u16], out: &mut [u8]) -> usize
    ensures { Puts (buffer_at out.old 0) (pair_lines (take (2 * count) table.now)) (buffer_at out.new result) }
{
    let many = tables::fill::least(2 * count as usize, table.len());
    put_links(out, &table[..many])
}

// The staircase tree, a line for each kept link, in the order in which they are taken.
pub(crate) fn staircase(t: &Lent, out: &mut [u8]) -> Result<usize, Refusal>
    ensures { StaircaseSaid t.now.radios (read_of t.now) out.old result out.new }
{
    let mut table = [0u16; ENTRIES];
    let count = staircase::staircase(t, &mut table)?;
    Ok(put_kept(count, &table, out))
}

// The first link that lifts v, in one line.
pub(crate) fn lift(t: &Lent, v: u32, out: &mut [u8]) -> Result<usize, Refusal>
    ensures { LiftSaid t.now.radios v (read_of t.now) out.old result out.new }
{
    let ends = lift::lift(t, v)?;
    Ok(put_link(out, 0, ends.low as u64, ends.high as u64))
}
