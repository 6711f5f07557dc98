// Rows of the links table: one bit tested, set or cleared, a row's neighbours listed, all or the ones above its own radio, and counted in a
// byte; the words of a row. `sets` has sets of radios, eight words each, `link_list` the links that a table marks. The bits of a row are
// walked here, and where a loop over a whole row is the work itself.
#![tactic(auto)]

ghost use Rattle.std.specs.Prelude.{◌≡◌, ◌≤◌, ◌+◌, ◌-◌};
ghost use Rattle.lists.specs.Kit.{suc, min, length, take, sets};
ghost use Rattle.mesh.specs.Limits.{max_radios, max_neighbours};
ghost use Rattle.lists.specs.Lists.{overwrite};
ghost use Rattle.mesh.specs.Tables.{marked, put_bit, put_link};
ghost use Rattle.rows.specs.Rows.{first_in, row_listed, neighbours_above, row_from, row_count, set_bits, row_word, word_of, WordsRoom};

pub mod link_list;
pub mod sets;

// The bits of a word.
pub const WORD_BITS: u32 = 64;

// The words of a row.
pub const ROW_WORDS: u32 = mesh::Site::RADIOS / WORD_BITS;

// Where the count of a row's neighbours stops: one past the limit, which tells a row with too many and is short of a byte's limit.
const STOP: u8 = mesh::Site::NEIGHBOURS as u8 + 1;

// Whether bit b of row a is set; a bit past the table is not.
pub fn is_marked(links: &[u8], a: u32, b: u32) -> bool
    ensures { result ≡ marked links.now a b }
{
    let at = mesh::Site::ROW_BYTES * a as usize + (b / 8) as usize;
    if at < links.len() {
        links[at] >> (b % 8) & 1 == 1
    } else {
        false
    }
}

// Sets or clears bit b of row a; past the table nothing changes.
pub fn put_bit(links: &mut [u8], on: bool, a: u32, b: u32)
    ensures { links.new ≡ put_bit on a b links.old }
{
    let at = mesh::Site::ROW_BYTES * a as usize + (b / 8) as usize;
    if at < links.len() {
        if on {
            links[at] |= 1 << (b % 8);
        } else {
            links[at] &= !(1 << (b % 8));
        }
    }
}

// Sets or clears both bits of the link between a and b; past the table nothing changes.
pub fn put_link(links: &mut [u8], up: bool, a: u32, b: u32)
    ensures { links.new ≡ put_link up a b links.old }
{
    put_bit(links, up, a, b);
    put_bit(links, up, b, a);
}

// The eight bytes of the table from `at` on, as one word, lowest byte first.
fn word_at(links: &[u8], at: usize) -> u64
    requires { at + 8 ≤ length links.now }
    ensures { result ≡ row_word 8 links.now at }
{
    links[at] as u64
        | (links[at + 1] as u64) << 8
        | (links[at + 2] as u64) << 16
        | (links[at + 3] as u64) << 24
        | (links[at + 4] as u64) << 32
        | (links[at + 5] as u64) << 40
        | (links[at + 6] as u64) << 48
        | (links[at + 7] as u64) << 56
}

// Word k of a row that is lent by itself; past the row 0.
pub fn word_of(row: &[u8], k: u32) -> u64
    ensures { result ≡ word_of row.now k }
{
    let at = 8 * k as usize;
    if row.len() < at + 8 {
        return 0;
    }
    word_at(row, at)
}

// How many radios row a marks, counted in a byte that stops at `STOP`; of a row that is not whole in the table 0.
pub fn row_degree(links: &[u8], a: u32) -> u8
    ensures { result ≡ row_count max_neighbours links.now a }
{
    let start = mesh::Site::ROW_BYTES * a as usize;
    if links.len() < start + mesh::Site::ROW_BYTES {
        return 0;
    }
    let mut n: u8 = 0;
    for k in 0..ROW_WORDS {
        n += u64::count_ones(word_at(links, start + 8 * k as usize)) as u8;
        if STOP <= n {
            return STOP;
        }
    }
    n
}

// Writes the places of the word's set bits, counted from `first`, into the list from place `count` on, until it is full, and
// comes back with the count of entries so far, a byte. The loop is small, so that it is unrolled word by word.
fn list_bits(word: u64, first: u32, list: &mut [u16], count: u8) -> u8
    requires { (first ≤ max_radios) × (count ≤ suc max_neighbours) × (count ≤ length list.old) }
    ensures counted { result ≡ min (length list.old) (count + length (set_bits 64 first word)) }
    ensures listed { list.new ≡ sets list.old count (set_bits 64 first word) }
{
    let mut rest = word;
    let mut n = count;
    while rest != 0 {
        if list.len() <= n as usize {
            return n;
        }
        list[n as usize] = (first + u64::trailing_zeros(rest)) as u16;
        rest = rest & (rest - 1);
        n += 1;
    }
    n
}

// Writes the radios of row a from word `from` on into a list of at most `STOP` entries, ascending, from place `count` on, until it
// is full, and comes back with the count of entries so far.
fn list_words(links: &[u8], a: u32, from: u32, list: &mut [u16], count: u8) -> u8
    requires { WordsRoom a from count (length links.now) (length list.old) }
    ensures counted { result ≡ min (length list.old) (count + length (row_from links.now a from)) }
    ensures listed { list.new ≡ sets list.old count (row_from links.now a from) }
{
    let start = mesh::Site::ROW_BYTES * a as usize;
    let mut n = count;
    for k in from..ROW_WORDS {
        n = list_bits(
            word_at(links, start + 8 * k as usize),
            WORD_BITS * k,
            list,
            n,
        );
    }
    n
}

// Writes the radios above a that row a marks into a list of at most `STOP` entries, ascending, until it is full, and comes back with
// how many it wrote: the bits up to its own are shifted out of its word.
fn list_above(links: &[u8], a: u32, list: &mut [u16]) -> u8
    requires { length list.old ≤ suc max_neighbours }
    ensures counted { result ≡ min (length list.old) (length (neighbours_above links.now a)) }
    ensures listed { list.new
        ≡ overwrite (take (length list.old) (neighbours_above links.now a)) list.old }
{
    if mesh::Site::RADIOS <= a {
        return 0;
    }
    let start = mesh::Site::ROW_BYTES * a as usize;
    if links.len() < start + mesh::Site::ROW_BYTES {
        return 0;
    }
    let k = a / WORD_BITS;
    let word = word_at(links, start + 8 * k as usize) >> (a % WORD_BITS) >> 1;
    let n = list_bits(word, a + 1, list, 0);
    list_words(links, a, k + 1, list, n)
}

// How many entries of a list of this length a row's neighbours may take.
fn row_room(length: usize) -> usize
    ensures { result ≡ min length (suc max_neighbours) }
{
    if length < STOP as usize {
        length
    } else {
        STOP as usize
    }
}

// Writes the radios that row a marks into the list, ascending, until it is full or `STOP` stand in it, and comes back with how
// many it wrote; later entries keep their content. Of a row that is not whole in the table nothing is written.
pub fn row_neighbours(links: &[u8], a: u32, list: &mut [u16]) -> u8
    ensures counted { result ≡ min (length list.old) (row_count max_neighbours links.now a) }
    ensures listed { list.new
        ≡ overwrite (take (min (length list.old) (suc max_neighbours)) (row_listed links.now a)) list.old }
{
    if links.len() < mesh::Site::ROW_BYTES * a as usize + mesh::Site::ROW_BYTES {
        return 0;
    }
    let room = row_room(list.len());
    list_words(links, a, 0, &mut list[..room], 0)
}

// The same of the radios above a, which are the higher ends of the links of which a is the lower.
pub fn row_above(links: &[u8], a: u32, list: &mut [u16]) -> u8
    ensures counted { result ≡ min (length list.old) (min (suc max_neighbours) (length (neighbours_above links.now a))) }
    ensures listed { list.new
        ≡ overwrite (take (min (length list.old) (suc max_neighbours)) (neighbours_above links.now a)) list.old }
{
    let room = row_room(list.len());
    list_above(links, a, &mut list[..room])
}

// Writes the places of the word's set bits, counted from `first`, into the list from place `at` on, as many as fit, and comes back
// with how many these are.
fn list_word(word: u64, first: u32, list: &mut [u16], at: usize) -> u8
    requires { first ≤ max_radios }
    ensures counted { result ≡ min (length list.old - at) (length (set_bits 64 first word)) }
    ensures listed { list.new ≡ sets list.old at (set_bits 64 first word) }
{
    if list.len() <= at {
        return 0;
    }
    list_bits(word, first, &mut list[at..], 0)
}

// Writes the radios of a set, kept as one row, into the list, ascending, as many as fit, and comes back with the count of all of
// them; later entries keep their content. Of a row that is not whole nothing is written, and the count is 0.
pub fn list_set(set: &[u8], list: &mut [u16]) -> u32
    ensures counted { result ≡ length (row_listed set.now 0) }
    ensures listed { list.new
        ≡ overwrite (take (length list.old) (row_listed set.now 0)) list.old }
{
    let mut radios = sets::RadioSet::empty();
    radios.join_row(set, 0);
    radios.list(list);
    radios.count_common(&radios)
}

// The lowest radio that row a marks; of a row that is not whole in the table none.
pub fn first_marked(links: &[u8], a: u32) -> Option<u32>
    ensures { result ≡ first_in (row_listed links.now a) }
{
    let start = mesh::Site::ROW_BYTES * a as usize;
    if links.len() < start + mesh::Site::ROW_BYTES {
        return None;
    }
    for k in 0..ROW_WORDS {
        let word = word_at(links, start + 8 * k as usize);
        if word != 0 {
            return Some(WORD_BITS * k + u64::trailing_zeros(word));
        }
    }
    None
}
