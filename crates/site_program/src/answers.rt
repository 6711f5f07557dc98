// The text of each verb.
ghost use Rattle.std.specs.Prelude.{◌≡◌};
ghost use Rattle.mesh.specs.Lent.{read_of};
ghost use Rattle.text.specs.Print.{buffer_at, Puts};
ghost use Rattle.site_program.specs.Texts.{accepted_line};
ghost use Rattle.site_program.specs.Said.{Said};

use super::arguments::Numbers;
use super::verbs::Verb;
use super::{listing, trees};
use calls::Refusal;
use mesh::Lent;
use script::{printing, writer};

// What a call that writes a text itself answers.
fn written(answer: Result<u32, Refusal>) -> Result<usize, Refusal>
    ensures { result ≡ answer }
{
    match answer {
        Ok(length) => Ok(length as usize),
        Err(refusal) => Err(refusal),
    }
}

// Puts the line of a site that nothing is wrong with.
fn put_check(n: u32, out: &mut [u8]) -> usize
    ensures { Puts (buffer_at out.old 0) (accepted_line n) (buffer_at out.new result) }
{
    let word = text::put_text(out, 0, b"0 accepted: a site of ");
    let size = text::put_decimal(out, word, n as u64);
    text::put_text(out, size, b" radios\n")
}

// The text of a verb, in front of the buffer: its length. It is refused as the verb's call is.
pub fn answer(verb: Verb, given: Numbers, t: &Lent, out: &mut [u8]) -> Result<usize, Refusal>
    ensures { Said verb given.v given.k t.now.radios (read_of t.now) out.old result out.new }
{
    match verb {
        Verb::Help => Ok(0),
        Verb::Check => Ok(put_check(t.radios, out)),
        Verb::Numbers => Ok(printing::put_numbers_line(out, 0, t.numbers)),
        Verb::Sheet => written(sheet::sheet(t, out)),
        Verb::Script => written(writer::write(t, out)),
        Verb::Image => written(image_writer::writer::write(t, out)),
        Verb::Backbone => listing::backbone(t, out),
        Verb::Staircase => listing::staircase(t, out),
        Verb::Tree => trees::tree(t, out),
        Verb::Core => listing::core(t, given.v, given.k, out),
        Verb::Lift => listing::lift(t, given.v, out),
        Verb::Unknown => Ok(0),
    }
}
