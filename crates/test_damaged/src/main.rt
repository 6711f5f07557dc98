// The soundness check on damaged tables: each condition of document 01 broken alone, and then lengths and sizes. Prints a line
// for each: its name, the refusal number and the value (1 sound, 0 not). Changes that do no damage come last: their verdict must
// differ from the ones above, which so turn on the damage alone. The expected lines are worked out by oracle/damaged.py.
#![tactic(auto)]

ghost use Rattle.std.specs.Prelude.{◌<◌};

use calls::Value;
use mesh::Lent;
use std::io;

// The sound tables of the site.
const NUMBERS: [u8; 5] = [2, 2, 2, 1, 0];

const ORDER: [u16; 5] = [4, 3, 2, 0, 1];

// A triangle 0 1 2, radio 3 linked to 2, radio 4 alone.
fn put_site(links: &mut [u8]) {
    rows::put_link(links, true, 0, 1);
    rows::put_link(links, true, 1, 2);
    rows::put_link(links, true, 0, 2);
    rows::put_link(links, true, 2, 3);
}

// Checks the tables and prints the line.
fn line(
    rt: &impl Print,
    name: &str,
    n: u32,
    links: &[u8],
    numbers: &[u8],
    order: &[u16],
) -> io::Result<()> {
    let verdict = Value::from(soundness::check(&Lent {
        radios: n,
        links,
        numbers,
        order,
    }));
    println!(rt; "{name} {} {}", verdict.number, verdict.value)
}

// The site of n radios with these numbers and this order.
fn say_tables(
    rt: &impl Print,
    name: &str,
    n: u32,
    numbers: &[u8],
    order: &[u16],
) -> io::Result<()> {
    let mut links = [0u8; 320];
    put_site(&mut links);
    line(rt, name, n, &links, numbers, order)
}

// The site with its own tables, called n radios.
fn say_size(rt: &impl Print, name: &str, n: u32) -> io::Result<()> {
    say_tables(rt, name, n, &NUMBERS, &ORDER)
}

// The site with another order.
fn say_order(rt: &impl Print, name: &str, order: [u16; 5]) -> io::Result<()> {
    say_tables(rt, name, 5, &NUMBERS, &order)
}

// The site with other numbers.
fn say_numbers(rt: &impl Print, name: &str, numbers: [u8; 5]) -> io::Result<()> {
    say_tables(rt, name, 5, &numbers, &ORDER)
}

// The site with one bit put twice, each time set or cleared.
fn say_bit(rt: &impl Print, name: &str, first: bool, last: bool, a: u32, b: u32) -> io::Result<()> {
    let mut links = [0u8; 320];
    put_site(&mut links);
    rows::put_bit(&mut links, first, a, b);
    rows::put_bit(&mut links, last, a, b);
    line(rt, name, 5, &links, &NUMBERS, &ORDER)
}

// Links radio k to each of the radios below it.
fn put_star(links: &mut [u8], k: u32) {
    for v in 0..k {
        rows::put_link(links, true, v, k);
    }
}

// The last of n radios linked to the first k, which stand before it in the order.
fn say_star(
    rt: &impl Print,
    name: &str,
    n: u32,
    k: u32,
    links: &mut [u8],
    numbers: &[u8],
    order: &mut [u16],
) -> io::Result<()> {
    put_star(links, k);
    tables::fill::index16(order);
    line(rt, name, n, links, numbers, order)
}

// The last of k + 1 radios linked to all others, and to itself where `own` is set: its row has k or k + 1 bits.
fn say_bits(rt: &impl Print, name: &str, k: usize, own: bool) -> io::Result<()>
    requires { k < 512 }
{
    let mut links = [0u8; 32768];
    let mut order = [0u16; 512];
    let numbers = [1u8; 512];
    let n = k + 1;
    rows::put_bit(&mut links, own, k as u32, k as u32);
    say_star(
        rt,
        name,
        n as u32,
        k as u32,
        &mut links[..64 * n],
        &numbers[..n],
        &mut order[..n],
    )
}

// At the limit and one past it.
fn few_bits(rt: &impl Print) -> io::Result<()> {
    say_bits(rt, "neighbours-40", 40, false)?;
    say_bits(rt, "neighbours-41", 41, false)?;
    say_bits(rt, "bits-40", 40, false)?;
    say_bits(rt, "bits-41", 41, false)
}

// 256 + 32 and 256 + 40 bits are what a byte that wraps takes for few.
fn many_bits(rt: &impl Print) -> io::Result<()> {
    say_bits(rt, "bits-255", 255, false)?;
    say_bits(rt, "bits-256", 256, false)?;
    say_bits(rt, "bits-257", 257, false)?;
    say_bits(rt, "bits-288", 288, false)?;
    say_bits(rt, "bits-296", 296, false)?;
    say_bits(rt, "bits-512", 511, true)
}

fn rows(rt: &impl Print) -> io::Result<()> {
    say_bit(rt, "one-sided", true, true, 0, 3)?;
    say_bit(rt, "own-bit", true, true, 0, 0)?;
    say_bit(rt, "bit-at-n", true, true, 0, 5)?;
    say_bit(rt, "bit-at-511", true, true, 4, 511)?;
    say_bit(rt, "bit-lost", false, false, 3, 2)
}

fn orders(rt: &impl Print) -> io::Result<()> {
    say_order(rt, "entry-twice", [4, 3, 2, 0, 0])?;
    say_order(rt, "entry-n", [4, 3, 2, 0, 5])?;
    say_order(rt, "entry-65535", [65535, 3, 2, 0, 1])?;
    say_order(rt, "numbers-fall", [3, 4, 2, 0, 1])
}

fn numbers(rt: &impl Print) -> io::Result<()> {
    say_numbers(rt, "later-too-many", [1, 1, 1, 1, 0])?;
    say_numbers(rt, "not-enough", [2, 2, 2, 1, 1])?;
    say_numbers(rt, "number-255", [2, 255, 2, 1, 0])
}

fn sizes(rt: &impl Print) -> io::Result<()> {
    say_size(rt, "n-0", 0)?;
    say_size(rt, "n-513", 513)?;
    say_size(rt, "n-4", 4)
}

fn lengths(rt: &impl Print) -> io::Result<()> {
    say_tables(rt, "short-numbers", 5, &[2, 2, 2, 1], &ORDER)?;
    say_tables(rt, "short-order", 5, &NUMBERS, &[4, 3, 2, 0])
}

fn no_damage(rt: &impl Print) -> io::Result<()> {
    say_bit(rt, "one-sided-mended", true, false, 0, 3)?;
    say_bit(rt, "bit-at-511-mended", true, false, 4, 511)?;
    say_order(rt, "other-order", [4, 3, 0, 1, 2])
}

fn main(rt: HostRuntime) -> io::Result<()> {
    say_size(&rt, "sound", 5)?;
    rows(&rt)?;
    few_bits(&rt)?;
    many_bits(&rt)?;
    orders(&rt)?;
    numbers(&rt)?;
    sizes(&rt)?;
    lengths(&rt)?;
    no_damage(&rt)
}
