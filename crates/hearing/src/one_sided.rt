// The one-sided pairs of a heard table: a hears b, and b does not hear a. The table is only read, word by word.
ghost use Rattle.std.specs.Prelude.{◌+◌, ◌*◌, ◌≤◌};
ghost use Rattle.lists.specs.Kit.{length};
ghost use Rattle.mesh.specs.Limits.{max_radios, row_bytes};
ghost use Rattle.rows.specs.Rows.{neighbours_of, set_bits};
ghost use Rattle.conditions.specs.Hearing.{OfSize, PairMarked, RowMarked, OneSidedMarked};

use mesh::Site;
use tables::fill;

// Marks the pair of a, which hears b, unless b hears a. Comes back with whether it did.
fn mark_pair(heard: &[u8], a: u32, b: u32, one_sided: &mut [u8]) -> bool
    ensures { PairMarked heard.now a b one_sided.old result one_sided.new }
{
    if rows::is_marked(heard, b, a) {
        return false;
    }
    rows::put_bit(one_sided, true, a, b);
    true
}

// Marks the pairs of a with the radios that a word of its row marks, from radio `first` on, and comes back with their count.
fn mark_word(heard: &[u8], a: u32, first: u32, word: u64, one_sided: &mut [u8]) -> u32
    requires { first ≤ max_radios }
    ensures { RowMarked heard.now a (set_bits 64 first word) one_sided.old result one_sided.new }
{
    let mut n: u32 = 0;
    let mut rest = word;
    while rest != 0 {
        n += mark_pair(heard, a, first + u64::trailing_zeros(rest), one_sided) as u32;
        rest = rest & (rest - 1);
    }
    n
}

// Marks the pairs of a with all radios that it hears, and comes back with their count.
fn mark_row(heard: &[u8], a: u32, one_sided: &mut [u8]) -> u32
    requires { row_bytes * a + row_bytes ≤ length heard.now }
    ensures { RowMarked heard.now a (neighbours_of heard.now a) one_sided.old result one_sided.new }
{
    let start = Site::ROW_BYTES * a as usize;
    let end = start + Site::ROW_BYTES;
    let row = &heard[start..end];
    let mut n: u32 = 0;
    for k in 0..rows::ROW_WORDS {
        n += mark_word(
            heard,
            a,
            rows::WORD_BITS * k,
            rows::word_of(row, k),
            one_sided,
        );
    }
    n
}

// Marks the one-sided pairs of n radios in `one_sided`, all its other bits are zero after, and comes back with their count.
pub fn mark(n: u32, heard: &[u8], one_sided: &mut [u8]) -> u32
    requires { OfSize n heard.now }
    ensures { OneSidedMarked n heard.now one_sided.old result one_sided.new }
{
    fill::fill(one_sided, &0);
    let mut count: u32 = 0;
    for a in 0..n {
        count += mark_row(heard, a, one_sided);
    }
    count
}
