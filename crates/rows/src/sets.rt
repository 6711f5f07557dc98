// Sets of radios as eight words, a bit for each radio: tested, put into, taken out of, joined with rows, compared and listed.
ghost use Rattle.std.specs.Prelude.{◌≡◌, ◌+◌, ◌*◌, ◌≤◌, ◌<◌};
ghost use Rattle.lists.specs.Kit.{min, length, get_or, bit_and, sets, replicate};
ghost use Rattle.rows.specs.Rows.{first_in, set_bits};
ghost use Rattle.rows.specs.Sets.{in_set, take_out, put_in, word_taken, RowJoined, common, CommonTaken, SetTaken, Listed};

use std::marker::Model;

// Whether v is in a set of words, as many as these are; past them it is not.
pub fn is_in(set: &[u64], v: u32) -> bool
    ensures { result ≡ in_set set.now v }
{
    let at = (v / super::WORD_BITS) as usize;
    if at < set.len() {
        set[at] >> (v % super::WORD_BITS) & 1 == 1
    } else {
        false
    }
}

// Takes v out of a set of words; past them nothing changes.
pub fn take_out(set: &mut [u64], v: u32)
    ensures { set.new ≡ take_out v set.old }
{
    let at = (v / super::WORD_BITS) as usize;
    if at < set.len() {
        set[at] &= !((1 as u64) << (v % super::WORD_BITS));
    }
}

// Puts v into a set of words; past them nothing changes.
pub fn put_in(set: &mut [u64], v: u32)
    ensures { set.new ≡ put_in v set.old }
{
    let at = (v / super::WORD_BITS) as usize;
    if at < set.len() {
        set[at] |= (1 as u64) << (v % super::WORD_BITS);
    }
}

// A set of radios: radio v is bit v % 64 of word v / 64. A contract sees it as the list of its eight words.
#[derive(Clone, Copy)]
pub struct RadioSet {
    words: [u64; super::ROW_WORDS as usize],
}

impl Model for RadioSet {
    ghost use Rattle.std.specs.Prelude.{List, ℕ, ◌≡◌, length};

    ghost Value = { List ℕ };

    ghost view = { λ a. a.words };

    ghost invariant = { λ a. length a.words ≡ 8 };

    ghost inverse = { λ ws. record { words = ws } };
}

impl RadioSet {
    // No radio.
    pub fn empty() -> Self
        ensures { result ≡ replicate 8 0 }
    {
        Self {
            words: [0; super::ROW_WORDS as usize],
        }
    }

    // Every radio.
    pub fn full() -> Self
        ensures { result ≡ replicate 8 18446744073709551615 }
    {
        Self {
            words: [u64::MAX; super::ROW_WORDS as usize],
        }
    }

    // The set of these words.
    pub fn of(words: [u64; super::ROW_WORDS as usize]) -> Self
        ensures { result ≡ words }
    {
        Self { words }
    }

    // Word k.
    pub fn word(&self, k: u32) -> u64
        requires { k < 8 }
        ensures { result ≡ get_or self.now k 0 }
    {
        self.words[k as usize]
    }

    // Whether v is in the set; past its words it is not.
    pub fn has(&self, v: u32) -> bool
        ensures { result ≡ in_set self.now v }
    {
        is_in(&self.words, v)
    }

    // Takes v out of the set; past its words nothing changes.
    pub fn take_out(&mut self, v: u32)
        ensures left { self.new ≡ take_out v self.old }
        ensures long { length self.new ≡ 8 }
    {
        take_out(&mut self.words, v);
    }

    // Puts v into the set; past its words nothing changes.
    pub fn put_in(&mut self, v: u32)
        ensures joined { self.new ≡ put_in v self.old }
        ensures long { length self.new ≡ 8 }
    {
        put_in(&mut self.words, v);
    }

    // Puts the radios that row a marks into the set. Where the row is not whole in the table nothing changes.
    pub fn join_row(&mut self, links: &[u8], a: u32)
        ensures { RowJoined links.now a self.old self.new }
    {
        let words = &mut self.words;
        let start = mesh::Site::ROW_BYTES * a as usize;
        let end = start + mesh::Site::ROW_BYTES;
        if links.len() < end {
            return;
        }
        let row = &links[start..end];
        for k in 0..super::ROW_WORDS {
            let at = k as usize;
            words[at] = words[at] | super::word_of(row, k);
        }
    }

    // Takes the radios that the other set has too out of the set, writes them into the list, ascending, as many as fit, and comes
    // back with how many it wrote; later entries keep their content.
    pub fn take_common(&mut self, other: &RadioSet, list: &mut [u16]) -> usize
        ensures { CommonTaken other.now self.old list.old result self.new list.new }
    {
        let mut n: usize = 0;
        for k in 0..super::ROW_WORDS {
            n = take_word(other.words[k as usize], k, &mut self.words, list, n);
        }
        n
    }

    // Takes the radios that the other set has too out of the set.
    pub fn take_set(&mut self, other: &RadioSet)
        ensures { SetTaken other.now self.old self.new }
    {
        for k in 0..super::ROW_WORDS as usize {
            self.words[k] = self.words[k] ^ (other.words[k] & self.words[k]);
        }
    }

    // The lowest radio that both sets have.
    pub fn first_common(&self, other: &RadioSet) -> Option<u32>
        ensures { result ≡ first_in (common self.now other.now) }
    {
        for k in 0..super::ROW_WORDS {
            let word = self.words[k as usize] & other.words[k as usize];
            if word != 0 {
                return Some(super::WORD_BITS * k + u64::trailing_zeros(word));
            }
        }
        None
    }

    // How many radios both sets have.
    pub fn count_common(&self, other: &RadioSet) -> u32
        ensures { result ≡ length (common self.now other.now) }
    {
        let mut n: u32 = 0;
        for k in 0..super::ROW_WORDS as usize {
            n += u64::count_ones(self.words[k] & other.words[k]);
        }
        n
    }

    // Writes the radios of the set into the list, ascending, as many as fit, and comes back with how many it wrote; later entries
    // keep their content.
    pub fn list(&self, list: &mut [u16]) -> u32
        ensures { Listed self.now list.old result list.new }
    {
        let mut n: usize = 0;
        for k in 0..super::ROW_WORDS {
            n += super::list_word(self.words[k as usize], super::WORD_BITS * k, list, n) as usize;
        }
        n as u32
    }
}

// Takes the radios that word k of another set has out of word k of the set, and writes them into the list from place n on, as many as
// fit. Comes back with the count of entries so far.
fn take_word(other: u64, k: u32, set: &mut [u64], list: &mut [u16], n: usize) -> usize
    requires { (k < 8) × (length set.old ≡ 8) × (n ≤ length list.old) × (n ≤ 64 * k) }
    ensures counted { result ≡ min (length list.old) (n + length (set_bits 64 (64 * k) (bit_and other (get_or set.old k 0)))) }
    ensures listed { list.new ≡ sets list.old n (set_bits 64 (64 * k) (bit_and other (get_or set.old k 0))) }
    ensures left { set.new ≡ word_taken k other set.old }
{
    let at = k as usize;
    let word = other & set[at];
    if word == 0 {
        return n;
    }
    set[at] = set[at] ^ word;
    n + super::list_word(word, super::WORD_BITS * k, list, n) as usize
}
