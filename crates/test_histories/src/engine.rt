// The engine's calls, on the front of tables that are as long as any call is lent.
use calls::{Refusal, Reply};
use mesh::Lent;
use test_model::expected::Call;
use test_model::model::Tables;
use test_parts::parts::front;

// The link call.
pub fn link(
    call: Call,
    links: &mut [u8],
    numbers: &mut [u8],
    order: &mut [u16],
    answer: &mut [u16],
) -> Reply {
    let i = call.links.min(links.len());
    let j = call.numbers.min(numbers.len());
    let k = call.order.min(order.len());
    let l = call.answer.min(answer.len());
    Reply::from(links::link::link(
        call.up,
        call.n,
        call.a,
        call.b,
        &mut links[..i],
        &mut numbers[..j],
        &mut order[..k],
        &mut answer[..l],
    ))
}

// Whether the check takes the tables and calls them sound.
fn passes(n: u32, links: &[u8], numbers: &[u8], order: &[u16]) -> bool {
    let lent = Lent {
        radios: n,
        links,
        numbers,
        order,
    };
    matches!(soundness::check(&lent), Ok(1))
}

// Whether the site's tables pass.
pub fn is_sound(n: u32, t: &Tables) -> bool {
    let many = n as usize;
    passes(
        n,
        front(&t.links, many % 1024 * 64),
        front(&t.numbers, many),
        front(&t.order, many),
    )
}

// Clears the site's tables.
pub fn clear(
    n: u32,
    links: &mut [u8],
    numbers: &mut [u8],
    order: &mut [u16],
) -> Result<(), Refusal> {
    let many = n as usize;
    let i = (many % 1024 * 64).min(links.len());
    let j = many.min(numbers.len());
    let k = many.min(order.len());
    tables::clear::clear(n, &mut links[..i], &mut numbers[..j], &mut order[..k])
}
