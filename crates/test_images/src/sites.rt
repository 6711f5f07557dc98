// The sites tried: links step by step round the radios, so that numbers and a k-order are known.
use super::reading;

// A site: its radios and links; the radios below `members` have this number, the others 0. Without `spread` the order is the
// others and then the members, both ascending.
#[derive(Clone, Copy)]
pub(crate) struct Shape {
    pub(crate) radios: u32,
    pub(crate) links: u32,
    pub(crate) members: u32,
    pub(crate) number: u8,
    pub(crate) spread: bool,
}

// The largest tables.
pub(crate) type Links = [u8; reading::LINKS];

pub(crate) type Numbers = [u8; reading::RADIOS];

pub(crate) type Order = [u16; reading::RADIOS];

// No links: every order is a k-order.
pub(crate) fn alone(radios: u32) -> Shape {
    Shape {
        radios,
        links: 0,
        members: 1,
        number: 0,
        spread: true,
    }
}

// Radio 0 linked to 1, 1 to 2, and so on, fewer links than radios.
pub(crate) fn path(radios: u32, links: u32) -> Shape {
    Shape {
        radios,
        links,
        members: links.wrapping_add(1),
        number: 1,
        spread: false,
    }
}

// Each radio linked to the nearest ones on both sides, half of the number on each: every order is a k-order.
pub(crate) fn ring(radios: u32, links: u32, number: u8) -> Shape {
    Shape {
        radios,
        links,
        members: radios,
        number,
        spread: true,
    }
}

// The ends of link j: the lower one goes round the n radios, and the other is one more step away each time round.
fn ends(n: u32, j: u32) -> (u32, u32) {
    if n == 0 {
        return (0, 0);
    }
    let near = j % n;
    let steps = (j / n).wrapping_add(1);
    (near, near.wrapping_add(steps) % n)
}

// Takes a link up.
pub(crate) fn put_link(links: &mut Links, a: u32, b: u32) {
    rows::put_link(links, true, a, b);
}

// Takes links 0 to count - 1 up.
pub(crate) fn put_links(links: &mut Links, n: u32, count: u32) {
    for j in 0..count {
        let (a, b) = ends(n, j);
        put_link(links, a, b);
    }
}

// Links radio `centre` to the radios below k.
pub(crate) fn put_star(links: &mut Links, k: u32, centre: u32) {
    for v in 0..k {
        put_link(links, v, centre);
    }
}

// Gives the radios below `members` this number.
pub(crate) fn put_numbers(numbers: &mut Numbers, members: u32, number: u8) {
    let count = reading::RADIOS.min(members as usize);
    let front = &mut numbers[..count];
    front.fill(number);
}

// Entry i of an order of n radios that starts with radio `first`; spread, the next entry is five radios on, else one.
fn entry(i: usize, spread: bool, first: u32, n: usize) -> u16 {
    if n == 0 {
        return 0;
    }
    let steps = if spread { 5 } else { 1 };
    ((steps * (i % 65536) + first as usize) % n % 65536) as u16
}

// Fills the order of n radios.
pub(crate) fn put_order(order: &mut Order, spread: bool, first: u32, n: usize) {
    for i in 0..reading::RADIOS {
        order[i] = entry(i, spread, first, n);
    }
}
