// The links of a row that are to go down, or to come up, for the site to have the agreed links of a heard table. The tables are only read,
// word by word.
ghost use Rattle.std.specs.Prelude.{◌≡◌, ◌+◌, ◌*◌, ◌≤◌, ◌<◌};
ghost use Rattle.lists.specs.Kit.{ℕ, ltb, length, get_or};
ghost use Rattle.mesh.specs.Limits.{max_radios, row_bytes};
ghost use Rattle.mesh.specs.Tables.{digit};
ghost use Rattle.lists.specs.Lists.{filter};
ghost use Rattle.rows.specs.Rows.{set_bits};
ghost use Rattle.conditions.specs.Hearing.{wanted_by, above_from, ListedFrom};

use mesh::Site;

// A heard table and its one-sided pairs. What their entries may be is said of every such struct.
#[derive(Clone, Copy)]
pub struct Hearing<'a> {
    pub heard: &'a [u8],
    pub one_sided: &'a [u8],
    ghost heard_bytes: { (i : ℕ) → get_or heard.now i 0 < 256 },
    ghost one_sided_bytes: { (i : ℕ) → get_or one_sided.now i 0 < 256 },
}

// The radios of a word whose links are to come up, or to go down, by the words of what is heard, of what of that is one-sided, and of what
// is linked: agreed and not linked, or linked and not agreed.
fn wanted_word(up: bool, heard: u64, alone: u64, links: u64) -> u64
    ensures { (m : ℕ) → m < 64 → digit result m ≡ wanted_by up (digit heard m) (digit alone m) (digit links m) }
{
    let agreed = heard & !alone;
    if up {
        return agreed & !links;
    }
    links & !agreed
}

// Writes the radios above a that a word marks, from radio `first` on, into the list from place `count` on, until it is full, and comes back
// with the count of entries so far; the rest of the list holds anything.
fn list_above(a: u32, first: u32, word: u64, list: &mut [u16], count: usize) -> usize
    requires { (first ≤ max_radios) × (count ≤ length list.old) }
    ensures { ListedFrom (filter (ltb a) (set_bits 64 first word)) count list.old result list.new }
{
    let mut n = count;
    let mut rest = word;
    while rest != 0 {
        if list.len() <= n {
            return n;
        }
        let b = first + u64::trailing_zeros(rest);
        list[n] = b as u16;
        n += (a < b) as usize;
        rest = rest & (rest - 1);
    }
    n
}

// Writes the radios above a whose link with a is to come up, or to go down, into the list, ascending, and comes back with their count, where
// the list has room for one more; the rest of it holds anything. The words of row a are read from its own radio's on.
pub fn list(up: bool, hearing: &Hearing, links: &[u8], a: u32, list: &mut [u16]) -> usize
    requires { (row_bytes * a + row_bytes ≤ length hearing.now.heard.now)
        × (row_bytes * a + row_bytes ≤ length hearing.now.one_sided.now) × (row_bytes * a + row_bytes ≤ length links.now) }
    ensures { ListedFrom (above_from up hearing.now.heard.now hearing.now.one_sided.now links.now a) 0 list.old result
        list.new }
{
    let start = Site::ROW_BYTES * a as usize;
    let end = start + Site::ROW_BYTES;
    let hears = &hearing.heard[start..end];
    let alone = &hearing.one_sided[start..end];
    let linked = &links[start..end];
    let mut n: usize = 0;
    for k in a / rows::WORD_BITS..rows::ROW_WORDS {
        let word = wanted_word(
            up,
            rows::word_of(hears, k),
            rows::word_of(alone, k),
            rows::word_of(linked, k),
        );
        n = list_above(a, rows::WORD_BITS * k, word, list, n);
    }
    n
}
