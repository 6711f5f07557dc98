// A batch: links taken up one by one, until one is refused. The tables are checked once.
ghost use Rattle.std.specs.Prelude.{◌≡◌};
ghost use Rattle.lists.specs.Kit.{true, length};
ghost use Rattle.mesh.specs.Lent.{lent};
ghost use Rattle.calls.specs.Batches.{list_length};
ghost use Rattle.calls.specs.Outcomes.{tabled, links_taken};
ghost use Rattle.calls.specs.CallContracts.{BatchContract};
ghost use Rattle.links.specs.Steps.{Prepared};
ghost use Rattle.links.specs.Batched.{batch_reply};

use super::step;
use calls::{Refusal, Value};
use mesh::Lent;
use soundness::Found;

// Why a batch stopped, and how many links were done before.
#[derive(Clone, Copy)]
pub struct Stopped {
    pub refusal: Refusal,
    pub done: u32,
}

// The answer of a batch, in its form for C: its number, and the count of links done, which stands beside a refusal too.
pub fn reply(answer: Result<u32, Stopped>) -> Value
    ensures { result ≡ batch_reply answer }
{
    match answer {
        Ok(done) => Value {
            number: 0,
            value: done,
        },
        Err(stopped) => Value {
            number: u32::from(stopped.refusal),
            value: stopped.done,
        },
    }
}

// Takes the links of the list, two entries each, up one by one, and stops at the first that is refused by 4 to 7: the count of links done,
// which remain. What is found of the tables is told of them before and after.
fn take_links(
    n: u32,
    list: &[u16],
    links: &mut [u8],
    numbers: &mut [u8],
    order: &mut [u16],
    found: &mut Found,
) -> Result<u32, Stopped>
    requires { Prepared n (lent links.old numbers.old order.old) found.old.places found.old.not_lower × (list_length (length list.now) ≡ true) }
    ensures { tabled (batch_reply result) (lent links.new numbers.new order.new)
        ≡ links_taken n list.now (lent links.old numbers.old order.old) }
{
    let many = list.len() / 2;
    for i in 0..many {
        let at = 2 * i;
        let a = list[at] as u32;
        let b = list[at + 1] as u32;
        if let Err(refusal) = step::step(true, n, a, b, links, numbers, order, found) {
            return Err(Stopped {
                refusal,
                done: i as u32,
            });
        }
    }
    Ok(many as u32)
}

// Takes the links of the list, two entries each, up one by one, and stops at the first that is refused by 4 to 7: the count of links done,
// which remain. Refused by 1 to 3, before any link, the count is 0 and every table keeps its content.
pub fn batch(
    n: u32,
    links: &mut [u8],
    numbers: &mut [u8],
    order: &mut [u16],
    list: &[u16],
) -> Result<u32, Stopped>
    ensures { BatchContract n list.now (lent links.old numbers.old order.old) (batch_reply result)
        (lent links.new numbers.new order.new) }
{
    let t = Lent {
        radios: n,
        links,
        numbers,
        order,
    };
    let mut found = Found::new();
    if let Err(refusal) = soundness::asked(
        &t,
        list.len() % 2 == 0,
        &mut found.places,
        &mut found.not_lower,
    ) {
        return Err(Stopped { refusal, done: 0 });
    }
    take_links(n, list, links, numbers, order, &mut found)
}
