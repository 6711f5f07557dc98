// A site's script, written into buffers of several lengths, printed, and played.
use crate::back;
use calls::Value;
use mesh::Lent;
use player::input::Ends;
use std::io;
use std::io::{Seek, SeekFrom, Write};
use summerbugle::{sb_script_length, sb_script_write};
use test_parts::{files, parts};

// More bytes than any script here has.
const ROOM: usize = 8192;

// What bytes hold that are not to be written.
const BYTE: u8 = 170;

// Prints a word and an answer.
pub fn answer(rt: &HostRuntime, word: &str, value: Value) -> io::Result<()> {
    println!(rt; "{word} {} {}", value.number, value.value)
}

// Writes the script into the first len bytes of the buffer, and prints the answer and how many bytes past the script are written.
fn write(rt: &HostRuntime, t: &Lent, buffer: &mut [u8], len: usize) -> io::Result<()> {
    let k = len.min(buffer.len());
    let answer = sb_script_write(t.radios, t.links, t.numbers, t.order, &mut buffer[..k]);
    let past = parts::touched(buffer, answer.value as usize, BYTE);
    println!(rt; "write {} {} {past}", answer.number, answer.value)
}

// Plays the text from a file of its own.
fn through_player(rt: &HostRuntime, text: &[u8]) -> io::Result<()> {
    let mut file = files::temporary(rt)?;
    file.write_all(text)?;
    file.seek(SeekFrom::Start(0))?;
    let mut ends = Ends {
        input: file,
        output: rt.stdout(),
        errors: rt.stderr(),
    };
    player::run(rt, &mut ends, usize::MAX);
    Ok(())
}

// Prints the script, which is played by the player and on tables of the host's own.
fn play(rt: &HostRuntime, t: &Lent, text: &[u8]) -> io::Result<()> {
    rt.write_all(text)?;
    through_player(rt, text)?;
    back::compare(rt, t, text)
}

// Measures the script, writes it into a longer buffer, one that is a byte short and one that is just right, and plays what this holds.
pub fn write_all(rt: &HostRuntime, t: &Lent) -> io::Result<()> {
    let size = sb_script_length(t.radios, t.links, t.numbers, t.order);
    answer(rt, "length", size)?;
    let len = size.value as usize;
    let mut longer = [BYTE; ROOM];
    write(rt, t, &mut longer, ROOM)?;
    let mut exact = [BYTE; ROOM];
    write(rt, t, &mut exact, len.wrapping_sub(1))?;
    write(rt, t, &mut exact, len)?;
    play(rt, t, parts::front(&exact, len))
}
