// Parts of lists, there for every number.

// The first k entries; all of them where there are fewer.
pub fn front<T>(s: &[T], k: usize) -> &[T] {
    let end = k.min(s.len());
    &s[..end]
}

// The entries from k on; none where there are fewer.
pub fn rest<T>(s: &[T], k: usize) -> &[T] {
    let start = k.min(s.len());
    &s[start..]
}

// How many bytes from the place `from` on are not this one.
pub fn touched(s: &[u8], from: usize, byte: u8) -> usize {
    s.iter().skip(from).filter(|x| **x != byte).count()
}
