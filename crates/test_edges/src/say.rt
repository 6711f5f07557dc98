// What is printed of a table: a word and its entries, in a line.
use std::fmt::Display;
use std::io;

pub fn entries<T: Display>(rt: &impl Print, word: &str, s: &[T]) -> io::Result<()> {
    print!(rt; "{word}")?;
    for x in s {
        print!(rt; " {x}")?;
    }
    println!(rt)
}
