// The links that a links table marks, by lower and then higher radio: row by row, the neighbours above the row's own radio, which
// rows::row_above lists.
ghost use Rattle.std.specs.Prelude.{◌≡◌};
ghost use Rattle.lists.specs.Kit.{length};
ghost use Rattle.rows.specs.Links.{RowsListed, links_from};

// How many links the first n rows mark, of which each fits the list. `list` holds anything after.
pub fn count_links(n: u32, links: &[u8], list: &mut [u16]) -> u32
    requires { RowsListed n links.now (length list.old) }
    ensures { result ≡ length (links_from n links.now 0 0) }
{
    let mut count: u32 = 0;
    for a in 0..n {
        count += super::row_above(links, a, list) as u32;
    }
    count
}
