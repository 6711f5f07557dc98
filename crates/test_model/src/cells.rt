// Entries of lent tables, read and written whatever the index is: past the end 0 is read, and nothing is written.

pub fn at<T: Copy + Default>(s: &[T], i: usize) -> T {
    s.get(i).copied().unwrap_or_default()
}

pub fn put(s: &mut [u16], i: usize, x: u16) {
    if i < s.len() {
        s[i] = x;
    }
}
