// The staircase tree: links are taken by weight falling, then lower radio, then higher radio, and one is kept when the kept ones do
// not yet join its ends. Level by level, by words: only the rows that have a link of the level are gone over, and of these only the
// links of the level.
#![tactic(auto)]

ghost use Rattle.std.specs.Prelude.{◌≡◌, ◌∷◌, ◌+◌, ◌*◌, ◌≤◌, ◌<◌};
ghost use Rattle.lists.specs.Kit.{[], flat_map, length};
ghost use Rattle.lists.specs.Lists.{filter, EntriesBelow};
ghost use Rattle.mesh.specs.Limits.{max_radios, max_neighbours, row_bytes};
ghost use Rattle.mesh.specs.Graph.{link_of};
ghost use Rattle.mesh.specs.Lent.{read_of};
ghost use Rattle.mesh.specs.Connected.{greatest};
ghost use Rattle.mesh.specs.Staircase.{of_weight};
ghost use Rattle.calls.specs.Answers.{value_reply};
ghost use Rattle.calls.specs.CallContracts.{StaircaseContract};
ghost use Rattle.rows.specs.Rows.{row_from, set_bits};
ghost use Rattle.rows.specs.Sets.{in_set};
ghost use Rattle.rows.specs.Links.{links_to, links_from, RowsListed};
ghost use Rattle.forests.specs.Growing.{table_weight, levels_falling};
ghost use Rattle.staircase.specs.Taking.{Takeable, Taken};
ghost use Rattle.staircase.specs.Rows.{row_among, level_row, RowsWhole, RadiosPut, NeighboursPut, LevelSets, LevelRows, Mutual};

use calls::Refusal;
use forest::Forest;
use mesh::{Lent, Site};
use rows::sets::RadioSet;

mod forest;
mod levels;

impl Forest<'_> {
    // Takes the link a-b: where its ends are of different parts it comes behind the links of the table, and the parts are one. Ends with
    // one parent are of one part, as most are on a dense site.
    fn take_link(&mut self, a: u16, b: u16)
        requires { Takeable self.old (link_of a b ∷ []) }
        ensures { Taken (link_of a b ∷ []) self.old self.new }
    {
        if self.parents[a as usize] == self.parents[b as usize] {
            return;
        }
        let x = forest::root(self.parents, a);
        let y = forest::root(self.parents, b);
        if x == y {
            return;
        }
        let at = 2 * self.count as usize;
        tables::fill::put16(self.table, at, a);
        tables::fill::put16(self.table, at + 1, b);
        forest::join(self.parents, x, y);
        self.count += 1;
    }

    // Takes the links of a to the radios that a word marks, from radio `first` on.
    fn take_bits(&mut self, a: u16, first: u32, word: u64)
        requires { (first ≤ max_radios) × Takeable self.old (links_to a (set_bits 64 first word)) }
        ensures { Taken (links_to a (set_bits 64 first word)) self.old self.new }
    {
        let mut rest = word;
        while rest != 0 {
            let b = (first + u64::trailing_zeros(rest)) as u16;
            self.take_link(a, b);
            rest = rest & (rest - 1);
        }
    }

    // Takes the links of a to the radios of the set that its row marks from word `from` on. Past the words that have radios there are
    // none.
    fn take_words(&mut self, links: &[u8], set: &RadioSet, a: u16, from: u32)
        requires { (a < max_radios) × (from ≤ 8) × (row_bytes * a + row_bytes ≤ length links.now) ×
            Takeable self.old (links_to a (filter (in_set set.now) (row_from links.now a from))) }
        ensures { Taken (links_to a (filter (in_set set.now) (row_from links.now a from))) self.old self.new }
    {
        let start = Site::ROW_BYTES * a as usize;
        let row = &links[start..start + Site::ROW_BYTES];
        let words = tables::fill::least(
            rows::ROW_WORDS as usize,
            self.parents.len() / rows::WORD_BITS as usize + 1,
        ) as u32;
        for k in from..words {
            let word = rows::word_of(row, k) & set.word(k);
            self.take_bits(a, rows::WORD_BITS * k, word);
        }
    }

    // Takes the links of a to the radios of the set above it: the bits up to its own are shifted out of its word.
    fn take_row(&mut self, links: &[u8], set: &RadioSet, a: u16)
        requires { (a < max_radios) × (row_bytes * a + row_bytes ≤ length links.now) × Takeable self.old (row_among links.now set.now a) }
        ensures { Taken (row_among links.now set.now a) self.old self.new }
    {
        let start = Site::ROW_BYTES * a as usize;
        let row = &links[start..start + Site::ROW_BYTES];
        let k = a as u32 / rows::WORD_BITS;
        let word = (rows::word_of(row, k) & set.word(k)) >> (a as u32 % rows::WORD_BITS) >> 1;
        self.take_bits(a, a as u32 + 1, word);
        self.take_words(links, set, a, k + 1);
    }

    // Takes the links of the level of a to radios above it. `own` are the radios of the level, `reach` these and the ones of higher
    // levels.
    fn take_radio(&mut self, links: &[u8], own: &RadioSet, reach: &RadioSet, a: u16)
        requires { (a < max_radios) × (row_bytes * a + row_bytes ≤ length links.now) ×
            Takeable self.old (level_row links.now own.now reach.now a) }
        ensures { Taken (level_row links.now own.now reach.now a) self.old self.new }
    {
        if own.has(a as u32) {
            self.take_row(links, reach, a);
            return;
        }
        self.take_row(links, own, a);
    }

    // Takes the links of the level of each listed radio, in turn.
    fn take_rows(&mut self, links: &[u8], own: &RadioSet, reach: &RadioSet, list: &[u16])
        requires { RowsWhole links.now list.now × Takeable self.old (flat_map (level_row links.now own.now reach.now) list.now) }
        ensures { Taken (flat_map (level_row links.now own.now reach.now) list.now) self.old self.new }
    {
        for a in list {
            self.take_radio(links, own, reach, *a);
        }
    }

    // One level: the rows that have a link of it, in turn. `own` are the radios of the level, `reach` these and the ones of higher
    // levels. The list holds anything after.
    fn take_level(
        &mut self,
        links: &[u8],
        numbers: &[u8],
        level: u8,
        own: &RadioSet,
        reach: &RadioSet,
        list: &mut [u16; Site::RADIOS as usize],
    )
        requires { Mutual (length numbers.now) links.now × (1 ≤ level) × LevelSets numbers.now level own.now reach.now ×
            Takeable self.old (of_weight (table_weight numbers.now) level (links_from (length numbers.now) links.now 0 0)) }
        ensures { Taken (of_weight (table_weight numbers.now) level (links_from (length numbers.now) links.now 0 0)) self.old self.new }
    {
        let many = list_rows(links, own, reach, self.count == 0, list);
        self.take_rows(links, own, reach, &list[..many]);
    }

    // All levels, from the greatest number down; levels that no radio has are skipped.
    fn take_levels(&mut self, links: &[u8], numbers: &[u8])
        requires { (length self.old.parents.now ≡ length numbers.now) × (self.old.count ≡ 0) × Mutual (length numbers.now) links.now ×
            RowsListed (length numbers.now) links.now max_neighbours × (greatest numbers.now ≤ max_neighbours) }
        ensures { Taken (levels_falling (table_weight numbers.now) (greatest numbers.now) (links_from (length numbers.now) links.now 0 0))
            self.old self.new }
    {
        let mut level = tables::numbers::greatest(numbers);
        let mut list = [0u16; Site::RADIOS as usize];
        let mut higher = RadioSet::empty();
        while level > 0 {
            let reach = floods::level::at_least(numbers, level);
            let mut own = reach;
            own.take_set(&higher);
            self.take_level(links, numbers, level, &own, &reach, &mut list);
            higher = reach;
            level = levels::level_below(numbers, level);
        }
    }
}

// The listed radios as a set.
fn radios_in(list: &[u16]) -> RadioSet
    requires { EntriesBelow max_radios list.now }
    ensures { RadiosPut list.now result }
{
    let mut set = RadioSet::empty();
    for v in list {
        set.put_in(*v as u32);
    }
    set
}

// Puts the neighbours of the listed radios into the set. A loop of its own: a word written by `radios_in` would hold up the pairs of
// words that are read here.
fn put_neighbours<'a>(links: &'a [u8], list: &'a [u16], set: &mut RadioSet)
    ensures { NeighboursPut links.now list.now set.old set.new }
{
    for v in list {
        set.join_row(links, *v as u32);
    }
}

// Lists the rows that may have a link of the level: the radios of the level, and of `reach` their neighbours. Comes back with how many
// these are. At the first level reach has the radios of the level alone, and no rows need be joined.
fn list_rows<'a>(
    links: &'a [u8],
    own: &'a RadioSet,
    reach: &'a RadioSet,
    first: bool,
    list: &mut [u16; Site::RADIOS as usize],
) -> usize
    requires { length own.now ≡ 8 }
    ensures { LevelRows links.now own.now reach.now result list.new }
{
    if first {
        return reach.list(list) as usize;
    }
    let many = own.list(list) as usize;
    let mut set = radios_in(&list[..many]);
    put_neighbours(links, &list[..many], &mut set);
    set.take_common(reach, list)
}

// The count of the kept links; they stand in front of the table, two entries each, lower radio first, and later entries keep their
// content. Refused by questions 1 to 3, it leaves the table as it was.
pub fn staircase(t: &Lent, table: &mut [u16]) -> Result<u32, Refusal>
    ensures { StaircaseContract t.now.radios (read_of t.now) table.old (value_reply result) table.new }
{
    if let Err(refusal) = soundness::ask(t, 2 * t.radios as usize <= table.len()) {
        return Err(refusal);
    }
    let mut all = [0u16; Site::RADIOS as usize];
    let parents = &mut all[..t.numbers.len()];
    tables::fill::index16(parents);
    let mut forest = Forest {
        parents,
        table,
        count: 0,
    };
    forest.take_levels(t.links, t.numbers);
    Ok(forest.count)
}
