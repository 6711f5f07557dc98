// What came back, value by value, against the words of the file.
use calls::{Refusal, Value};
use std::io;
use std::io::Read;
use test_parts::words;

// What every entry and place holds before a call: no radio, level or name.
pub const KEPT: u16 = 600;

// How many calls were made, how many values compared, how many of them wrong.
#[derive(Clone, Copy)]
pub struct Tally {
    pub calls: u64,
    pub compared: u64,
    pub wrong: u64,
}

impl Tally {
    pub fn none() -> Self {
        Self {
            calls: 0,
            compared: 0,
            wrong: 0,
        }
    }

    // One value more.
    fn value(&mut self, x: u16, y: u16) {
        self.compared = self.compared.wrapping_add(1);
        self.wrong = self.wrong.wrapping_add((x != y) as u64);
    }

    // A call's number and value.
    pub fn reply(&mut self, file: &mut impl Read, answer: Result<u32, Refusal>) -> io::Result<()> {
        let r = Value::from(answer);
        self.calls = self.calls.wrapping_add(1);
        self.value((r.number % 65536) as u16, words::half(file)?);
        self.value((r.value % 65536) as u16, words::half(file)?);
        Ok(())
    }

    // Every entry of a list, whose first ones, after their count, are in the file: later entries keep their content.
    pub fn entries(&mut self, file: &mut impl Read, list: &[u16]) -> io::Result<()> {
        let count = words::half(file)? as usize;
        for (i, x) in list.iter().enumerate() {
            let owed = if i < count { words::half(file)? } else { KEPT };
            self.value(*x, owed);
        }
        Ok(())
    }
}
