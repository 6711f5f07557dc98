// The script that rebuilds a site: the replay program's line 1, then a line for each link, lower radio first, ascending by lower and
// then higher. Its length is counted by digits beforehand, and is the length written. A buffer that is shorter is refused by 13; in a
// longer one no byte of a link's line asks whether it fits. The words of the lines are crate script's.
ghost use Rattle.std.specs.Prelude.{◌≡◌, ◌+◌, ◌≤◌, ◌<◌};
ghost use Rattle.lists.specs.Kit.{flat_map, length};
ghost use Rattle.lists.specs.Lists.{EntriesBelow};
ghost use Rattle.mesh.specs.Limits.{max_radios, max_neighbours};
ghost use Rattle.mesh.specs.Graph.{graph};
ghost use Rattle.mesh.specs.Lent.{read_of};
ghost use Rattle.rows.specs.Rows.{neighbours_above};
ghost use Rattle.text.specs.Text.{digit_byte, decimal};
ghost use Rattle.text.specs.Print.{buffer_at, Puts};
ghost use Rattle.calls.specs.Script.{radios_text, up_text, up_line, script_of, script_length};
ghost use Rattle.calls.specs.Answers.{value_reply};
ghost use Rattle.calls.specs.CallContracts.{ScriptLengthContract, ScriptContract};
ghost use Rattle.rows.specs.Links.{links_to, links_above, links_from, RowsListed};
ghost use Rattle.script.specs.Longest.{longest_script};

use super::lines;
use calls::Refusal;
use mesh::{Lent, Site};
use tables::fill;

// Puts line 1 of a site of n radios.
fn put_first(buffer: &mut [u8], at: usize, n: u64) -> usize
    ensures { Puts (buffer_at buffer.old at) (radios_text n) (buffer_at buffer.new result) }
{
    let number = text::put_text(buffer, at, &lines::RADIOS);
    let feed = text::put_decimal(buffer, number, n);
    text::put_byte(buffer, feed, b'\n')
}

// The byte of a digit.
fn digit_byte(digit: u32) -> u8
    requires { digit < 10 }
    ensures { result ≡ digit_byte digit }
{
    b'0' + digit as u8
}

// Puts a radio, which has at most three digits.
fn put_number(buffer: &mut [u8], at: usize, x: u32) -> usize
    requires { (x < 1000) × (at + length (decimal x) ≤ length buffer.old) }
    ensures { Puts (buffer_at buffer.old at) (decimal x) (buffer_at buffer.new result) }
{
    if x < 10 {
        buffer[at] = digit_byte(x);
        return at + 1;
    }
    if x < 100 {
        buffer[at] = digit_byte(x / 10);
        buffer[at + 1] = digit_byte(x % 10);
        return at + 2;
    }
    buffer[at] = digit_byte(x / 100);
    buffer[at + 1] = digit_byte(x / 10 % 10);
    buffer[at + 2] = digit_byte(x % 10);
    at + 3
}

// Puts a word of a line, which fits.
fn put_word(buffer: &mut [u8], at: usize, word: &[u8]) -> usize
    requires { at + length word.now ≤ length buffer.old }
    ensures { Puts (buffer_at buffer.old at) word.now (buffer_at buffer.new result) }
{
    let end = at + word.len();
    fill::copy(&mut buffer[at..end], word);
    end
}

// Puts the line that takes the link between a and b up.
fn put_up(buffer: &mut [u8], at: usize, a: u32, b: u32) -> usize
    requires { (a < 1000) × (b < 1000) × (at + length (up_text a b) ≤ length buffer.old) }
    ensures { Puts (buffer_at buffer.old at) (up_text a b) (buffer_at buffer.new result) }
{
    let lower = put_word(buffer, at, &lines::UP);
    let space = put_number(buffer, lower, a);
    buffer[space] = b' ';
    let feed = put_number(buffer, space + 1, b);
    buffer[feed] = b'\n';
    feed + 1
}

// Puts a line for each link of a to the listed radios.
fn put_row(buffer: &mut [u8], at: usize, a: u32, list: &[u16]) -> usize
    requires radios { (a < max_radios) × EntriesBelow max_radios list.now }
    requires room { at + length (flat_map up_line (links_to a list.now)) ≤ length buffer.old }
    ensures { Puts (buffer_at buffer.old at) (flat_map up_line (links_to a list.now))
        (buffer_at buffer.new result) }
{
    let mut place = at;
    for b in list {
        place = put_up(buffer, place, a, *b as u32);
    }
    place
}

// Puts a line for each link of a to a radio above it.
fn put_radio(buffer: &mut [u8], at: usize, links: &[u8], a: u32) -> usize
    requires listed { (a < max_radios) × (length (neighbours_above links.now a) ≤ max_neighbours) }
    requires room { at + length (flat_map up_line (links_above links.now a)) ≤ length buffer.old }
    ensures { Puts (buffer_at buffer.old at) (flat_map up_line (links_above links.now a))
        (buffer_at buffer.new result) }
{
    let mut near = [0u16; Site::NEIGHBOURS as usize];
    let count = rows::row_above(links, a, &mut near) as usize;
    put_row(buffer, at, a, &near[..count])
}

// Puts a line for each link that the first n rows mark.
fn put_links(buffer: &mut [u8], at: usize, n: u32, links: &[u8]) -> usize
    requires listed { RowsListed n links.now max_neighbours }
    requires room { at + length (flat_map up_line (links_from n links.now 0 0)) ≤ length buffer.old }
    ensures { Puts (buffer_at buffer.old at) (flat_map up_line (links_from n links.now 0 0))
        (buffer_at buffer.new result) }
{
    let mut place = at;
    for a in 0..n {
        place = put_radio(buffer, place, links, a);
    }
    place
}

// Puts the script, which fits, from the buffer's first byte on and comes back with its length.
fn put_script(buffer: &mut [u8], n: u32, links: &[u8]) -> usize
    requires listed { RowsListed n links.now max_neighbours }
    requires room { script_length (graph n (links_from n links.now 0 0)) ≤ length buffer.old }
    ensures { Puts (buffer_at buffer.old 0) (script_of (graph n (links_from n links.now 0 0)))
        (buffer_at buffer.new result) }
{
    let place = put_first(buffer, 0, n as u64);
    put_links(buffer, place, n, links)
}

// How many digits a radio has.
fn digits(x: u16) -> usize
    requires { x < 1000 }
    ensures { (result ≡ length (decimal x)) × (result ≤ 3) }
{
    if x < 10 {
        return 1;
    }
    if x < 100 {
        return 2;
    }
    3
}

// The bytes of a line for each link of a to the listed radios: beside their digits, a line has `up`, two spaces and a line feed.
fn row_length(a: u16, list: &[u16]) -> usize
    requires radios { (a < max_radios) × EntriesBelow max_radios list.now }
    requires few { length list.now ≤ max_neighbours }
    ensures { result ≡ length (flat_map up_line (links_to a list.now)) }
{
    let own = 5 + digits(a);
    let mut sum: usize = 0;
    for b in list {
        sum += own + digits(*b);
    }
    sum
}

// The bytes of a line for each link of a to a radio above it.
fn radio_length(links: &[u8], a: u32) -> usize
    requires { (a < max_radios) × (length (neighbours_above links.now a) ≤ max_neighbours) }
    ensures { result ≡ length (flat_map up_line (links_above links.now a)) }
{
    let mut near = [0u16; Site::NEIGHBOURS as usize];
    let count = rows::row_above(links, a, &mut near) as usize;
    row_length(a as u16, &near[..count])
}

// The bytes of a line for each link that the first n rows mark.
fn links_length(n: u32, links: &[u8]) -> usize
    requires listed { RowsListed n links.now max_neighbours }
    requires short { length (flat_map up_line (links_from n links.now 0 0)) ≤ longest_script }
    ensures { result ≡ length (flat_map up_line (links_from n links.now 0 0)) }
{
    let mut sum: usize = 0;
    for a in 0..n {
        sum += radio_length(links, a);
    }
    sum
}

// The script's length, counted by digits: line 1 has `radios`, a space and a line feed beside them.
fn measure(n: u32, links: &[u8]) -> usize
    requires listed { RowsListed n links.now max_neighbours }
    requires short { script_length (graph n (links_from n links.now 0 0)) ≤ longest_script }
    ensures { result ≡ script_length (graph n (links_from n links.now 0 0)) }
{
    8 + digits(n as u16) + links_length(n, links)
}

// The script's length in bytes. Refused by questions 1 to 3.
pub fn length(t: &Lent) -> Result<u32, Refusal>
    ensures { ScriptLengthContract t.now.radios (read_of t.now) (value_reply result) }
{
    if let Err(refusal) = soundness::ask(t, true) {
        return Err(refusal);
    }
    Ok(measure(t.radios, t.links) as u32)
}

// The script's length in bytes; the script stands in front of the buffer, and later bytes keep their content. Refused by questions 1 to 3
// and 13: then the buffer keeps its content.
pub fn write(t: &Lent, buffer: &mut [u8]) -> Result<u32, Refusal>
    ensures { ScriptContract t.now.radios (read_of t.now) buffer.old (value_reply result) buffer.new }
{
    if let Err(refusal) = soundness::ask(t, true) {
        return Err(refusal);
    }
    let size = measure(t.radios, t.links);
    if buffer.len() < size {
        return Err(Refusal::Text);
    }
    put_script(buffer, t.radios, t.links);
    Ok(size as u32)
}
