// A digest of tables: a polynomial sum modulo the largest prime below 2^32.

const MODULUS: u64 = 4294967291;

const BASE: u64 = 65599;

// The digest h with one more value, of which the low 16 bits count.
pub fn mixed(h: u64, x: u64) -> u64 {
    (h % MODULUS * BASE + x % 65536 + 1) % MODULUS
}

// The digest h with all values of s, whatever their width.
pub fn of<T: Copy + Into<u64>>(h: u64, s: &[T]) -> u64 {
    let mut d = h;
    for x in s {
        d = mixed(d, (*x).into());
    }
    d
}

// The digest of a site's tables.
pub fn site(links: &[u8], numbers: &[u8], order: &[u16]) -> u64 {
    of(of(of(0, links), numbers), order)
}

// The sum h one place on.
fn moved(h: u64) -> u64 {
    h % MODULUS * BASE % MODULUS
}

// The digest h with `count` values whose own digest is d.
pub fn joined(h: u64, count: usize, d: u64) -> u64 {
    let mut x = h;
    for _ in 0..count {
        x = moved(x);
    }
    (x % MODULUS + d % MODULUS) % MODULUS
}
