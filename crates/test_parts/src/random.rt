// Pseudo-random numbers, the same in every run.

// The number after x, by Marsaglia's xorshift over 64 bits; 0 has no other number after it.
pub fn next(x: u64) -> u64 {
    let y = x ^ (x << 13);
    let z = y ^ (y >> 7);
    z ^ (z << 17)
}

// A number below n, from the high half of x; 0 where n is 0.
pub fn below(x: u64, n: u32) -> u32 {
    if n == 0 {
        return 0;
    }
    ((x >> 32) as u32) % n
}
