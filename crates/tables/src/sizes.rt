// Questions 1 and 2 for every combination of tables that a public call takes. Tables come lent, or as their lengths, which may be any;
// what comes back is the first of the questions that gets "no".
ghost use Rattle.std.specs.Prelude.{◌≡◌};
ghost use Rattle.mesh.specs.Lent.{read_of};
ghost use Rattle.mesh.specs.Limits.{size_good};
ghost use Rattle.calls.specs.Answers.{call_number};
ghost use Rattle.tables.specs.Sizes.{lengths};
ghost use Rattle.calls.specs.Questions.{lengths_of, site_lengths, tables_refusal, lent_refusal};

use calls::Refusal;
use mesh::{Lent, Site};

// Question 1: has the site 1 to 512 radios?
pub fn is_size(n: u32) -> bool
    ensures { result ≡ size_good n }
{
    if n < 1 {
        return false;
    }
    n <= Site::RADIOS
}

// Question 2 of links, numbers and order.
fn are_lengths(site: Site, links: usize, numbers: usize, order: usize) -> bool
    ensures { result ≡ site_lengths site.radios (lengths links numbers order) }
{
    let n = site.radios as usize;
    if links != Site::ROW_BYTES * n {
        return false;
    }
    if numbers != n {
        return false;
    }
    order == n
}

// Links, numbers and order of these lengths, where `others` is the answer that question 2 gets for further tables.
pub fn with_others(
    site: Site,
    links: usize,
    numbers: usize,
    order: usize,
    others: bool,
) -> Result<(), Refusal>
    ensures { call_number result ≡ lent_refusal site.radios (lengths links numbers order) others 0 }
{
    if !is_size(site.radios) {
        return Err(Refusal::Size);
    }
    if !are_lengths(site, links, numbers, order) {
        return Err(Refusal::Length);
    }
    if !others {
        return Err(Refusal::Length);
    }
    Ok(())
}

// Links, numbers and order of these lengths.
pub fn of_tables(site: Site, links: usize, numbers: usize, order: usize) -> Result<(), Refusal>
    ensures { call_number result ≡ tables_refusal site.radios (lengths links numbers order) }
{
    with_others(site, links, numbers, order, true)
}

// The lent tables and further ones, of which question 2 gets the answer `others`.
pub fn ask_with(t: &Lent, others: bool) -> Result<(), Refusal>
    ensures { call_number result ≡ lent_refusal t.now.radios (lengths_of (read_of t.now)) others 0 }
{
    let site = Site { radios: t.radios };
    with_others(site, t.links.len(), t.numbers.len(), t.order.len(), others)
}

// The lent tables.
pub fn ask(t: &Lent) -> Result<(), Refusal>
    ensures { call_number result ≡ tables_refusal t.now.radios (lengths_of (read_of t.now)) }
{
    ask_with(t, true)
}
