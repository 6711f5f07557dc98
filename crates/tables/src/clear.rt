// Clearing a site.
ghost use Rattle.mesh.specs.Lent.{lent};
ghost use Rattle.calls.specs.Answers.{call_number};
ghost use Rattle.calls.specs.CallContracts.{ClearContract};

use super::{fill, sizes};
use calls::Refusal;
use mesh::Lent;

// Accepted, links and numbers are zero after and the order is 0 to n - 1; refused, by 1 or 2, every table keeps its content.
pub fn clear(n: u32, links: &mut [u8], numbers: &mut [u8], order: &mut [u16]) -> Result<(), Refusal>
    ensures { ClearContract n (lent links.old numbers.old order.old) (call_number result)
        (lent links.new numbers.new order.new) }
{
    let t = Lent {
        radios: n,
        links,
        numbers,
        order,
    };
    if let Err(refusal) = sizes::ask(&t) {
        return Err(refusal);
    }
    fill::fill(links, &0);
    fill::fill(numbers, &0);
    fill::index16(order);
    Ok(())
}
