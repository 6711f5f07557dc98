// Questions 14 and 7 of a heard table. The table is only read, word by word.
ghost use Rattle.std.specs.Prelude.{◌≡◌, ◌+◌, ◌*◌, ◌≤◌, ◌<◌};
ghost use Rattle.lists.specs.Kit.{ℕ, leb, length};
ghost use Rattle.mesh.specs.Limits.{max_radios, max_neighbours, row_bytes};
ghost use Rattle.lists.specs.Lists.{count};
ghost use Rattle.rows.specs.Rows.{neighbours_of, set_bits};
ghost use Rattle.calls.specs.Answers.{call_number};
ghost use Rattle.calls.specs.Heard.{agreed_degree, heard_proper, agreed_few};
ghost use Rattle.conditions.specs.Hearing.{OfSize, hears, none_from, rows_refusal};

use calls::Refusal;
use mesh::Site;

// Whether row a marks no radio at n or above: word by word; of the first the bits below n are shifted out.
fn is_within(n: u32, heard: &[u8], a: u32) -> bool
    requires { row_bytes * a + row_bytes ≤ length heard.now }
    ensures { result ≡ none_from n heard.now a }
{
    let start = Site::ROW_BYTES * a as usize;
    let end = start + Site::ROW_BYTES;
    let row = &heard[start..end];
    let mut b = n;
    while b < Site::RADIOS {
        if rows::word_of(row, b / rows::WORD_BITS) >> (b % rows::WORD_BITS) != 0 {
            return false;
        }
        b += rows::WORD_BITS - b % rows::WORD_BITS;
    }
    true
}

// Question 14: does no row mark its own radio or one at n or above?
fn is_proper(n: u32, heard: &[u8]) -> bool
    requires { OfSize n heard.now }
    ensures { result ≡ heard_proper n heard.now }
{
    for a in 0..n {
        if rows::is_marked(heard, a, a) {
            return false;
        }
        if !is_within(n, heard, a) {
            return false;
        }
    }
    true
}

// How many of the radios that a word of row a marks, from radio `first` on, hear a.
fn count_word(heard: &[u8], a: u32, first: u32, word: u64) -> u32
    requires { first ≤ max_radios }
    ensures { result ≡ count (hears heard.now a) (set_bits 64 first word) }
{
    let mut n: u32 = 0;
    let mut rest = word;
    while rest != 0 {
        n += rows::is_marked(heard, first + u64::trailing_zeros(rest), a) as u32;
        rest = rest & (rest - 1);
    }
    n
}

// How many agreed links a has: the radios that it hears and that hear it.
fn count_agreed(heard: &[u8], a: u32) -> u32
    requires { row_bytes * a + row_bytes ≤ length heard.now }
    ensures { result ≡ count (hears heard.now a) (neighbours_of heard.now a) }
{
    let start = Site::ROW_BYTES * a as usize;
    let end = start + Site::ROW_BYTES;
    let row = &heard[start..end];
    let mut n: u32 = 0;
    for k in 0..rows::ROW_WORDS {
        n += count_word(heard, a, rows::WORD_BITS * k, rows::word_of(row, k));
    }
    n
}

// Whether a has at most as many agreed links as a radio may have neighbours. One that hears no more radios than that need not be counted.
fn is_few(heard: &[u8], a: u32) -> bool
    ensures { (n : ℕ) → OfSize n heard.now → a < n → result ≡ leb (agreed_degree n heard.now a) max_neighbours }
{
    if rows::row_degree(heard, a) as u32 <= Site::NEIGHBOURS {
        return true;
    }
    count_agreed(heard, a) <= Site::NEIGHBOURS
}

// Question 7: has each of n radios at most as many agreed links as a radio may have neighbours? So few radios cannot have more.
fn are_few(n: u32, heard: &[u8]) -> bool
    requires { OfSize n heard.now }
    ensures { result ≡ agreed_few max_neighbours n heard.now }
{
    if n <= Site::NEIGHBOURS {
        return true;
    }
    for a in 0..n {
        if !is_few(heard, a) {
            return false;
        }
    }
    true
}

// Questions 14 and 7.
pub fn ask(n: u32, heard: &[u8]) -> Result<(), Refusal>
    requires { OfSize n heard.now }
    ensures { call_number result ≡ rows_refusal n heard.now }
{
    if !is_proper(n, heard) {
        return Err(Refusal::Heard);
    }
    if !are_few(n, heard) {
        return Err(Refusal::NoRoom);
    }
    Ok(())
}
