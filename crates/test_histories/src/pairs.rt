// Radios and pairs by their index.

// The number after u, round the numbers below m.
pub fn after(u: u32, m: u32) -> u32 {
    if u < m && u + 1 < m { u + 1 } else { 0 }
}

// The first and the second of pair i, of m radios each; 0 where there are none.
pub fn first_of(i: u32, m: u32) -> u32 {
    i.checked_div(m).unwrap_or(0)
}

pub fn second_of(i: u32, m: u32) -> u32 {
    i.checked_rem(m).unwrap_or(0)
}

// Index i, scattered over all indices below `pairs`: 641 is prime and divides no number of pairs used here.
pub fn scattered(i: u32, pairs: u32) -> u32 {
    second_of((i % 65536) * 641, pairs)
}
