// A hearing: the site brought to the links that both ends hear, as if by single calls. The tables are checked once.
ghost use Rattle.std.specs.Prelude.{◌≡◌, ◌≤◌};
ghost use Rattle.lists.specs.Kit.{length};
ghost use Rattle.mesh.specs.Limits.{max_radios};
ghost use Rattle.mesh.specs.Lent.{lent};
ghost use Rattle.calls.specs.Answers.{value_reply};
ghost use Rattle.calls.specs.CallContracts.{HearContract};
ghost use Rattle.links.specs.Steps.{Prepared};
ghost use Rattle.hearing.specs.Hearings.{MarkedHearing, RowSwitched, RowsSwitched, Brought};

use super::wanted::{Hearing, list};
use super::{one_sided, questions};
use calls::Refusal;
use links::step;
use mesh::{Lent, Site};
use soundness::Found;

// Takes the links of a to the listed radios up or down, one by one; of a link that is wanted none is refused. What is found of the tables
// is told of them before and after.
fn switch_row(
    up: bool,
    n: u32,
    a: u32,
    list: &[u16],
    links: &mut [u8],
    numbers: &mut [u8],
    order: &mut [u16],
    found: &mut Found,
)
    requires { Prepared n (lent links.old numbers.old order.old) found.old.places found.old.not_lower × (length list.now ≤ max_radios) }
    ensures { RowSwitched up n a list.now (lent links.old numbers.old order.old)
        (lent links.new numbers.new order.new) found.new.places found.new.not_lower }
{
    for b in list {
        let _ = step::step(up, n, a, *b as u32, links, numbers, order, found);
    }
}

// Takes the links that are wanted up, or down, row by row; the ones of a row, at most as many as a radio may have neighbours, are listed
// before the first of them.
fn switch_rows(
    up: bool,
    n: u32,
    hearing: &Hearing,
    links: &mut [u8],
    numbers: &mut [u8],
    order: &mut [u16],
    found: &mut Found,
)
    requires { Prepared n (lent links.old numbers.old order.old) found.old.places found.old.not_lower
        × MarkedHearing n hearing.now.heard.now hearing.now.one_sided.now }
    ensures { RowsSwitched up n hearing.now.heard.now (lent links.old numbers.old order.old)
        (lent links.new numbers.new order.new) found.new.places found.new.not_lower }
{
    let mut room = [0u16; Site::NEIGHBOURS as usize + 1];
    for a in 0..n {
        let k = list(up, hearing, links, a, &mut room);
        switch_row(up, n, a, &room[..k], links, numbers, order, found);
    }
}

// Links to go down, then links to come up.
fn bring(
    n: u32,
    hearing: &Hearing,
    links: &mut [u8],
    numbers: &mut [u8],
    order: &mut [u16],
    found: &mut Found,
)
    requires { Prepared n (lent links.old numbers.old order.old) found.old.places found.old.not_lower
        × MarkedHearing n hearing.now.heard.now hearing.now.one_sided.now }
    ensures { Brought n hearing.now.heard.now (lent links.old numbers.old order.old)
        (lent links.new numbers.new order.new) }
{
    switch_rows(false, n, hearing, links, numbers, order, found);
    switch_rows(true, n, hearing, links, numbers, order, found);
}

// Marks the one-sided pairs of the heard table in `one_sided`, all its other bits zero, and brings the site to the agreed links: links
// to go down, by lower radio and then higher, then links to come up, likewise. It comes back with the count of one-sided pairs. Refused by
// 1 to 3, 14 or 7, every table keeps its content.
pub fn hear(
    n: u32,
    links: &mut [u8],
    numbers: &mut [u8],
    order: &mut [u16],
    heard: &[u8],
    one_sided: &mut [u8],
) -> Result<u32, Refusal>
    ensures { HearContract n heard.now (lent links.old numbers.old order.old) one_sided.old (value_reply result)
        (lent links.new numbers.new order.new) one_sided.new }
{
    let t = Lent {
        radios: n,
        links,
        numbers,
        order,
    };
    let bytes = Site::ROW_BYTES * n as usize;
    let others = (heard.len() == bytes) & (one_sided.len() == bytes);
    let mut found = Found::new();
    if let Err(refusal) = soundness::asked(&t, others, &mut found.places, &mut found.not_lower) {
        return Err(refusal);
    }
    if let Err(refusal) = questions::ask(n, heard) {
        return Err(refusal);
    }
    let count = one_sided::mark(n, heard, one_sided);
    let hearing = Hearing { heard, one_sided };
    bring(n, &hearing, links, numbers, order, &mut found);
    Ok(count)
}
