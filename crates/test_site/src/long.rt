// Inputs of many reads: noise, and a script of many lines.
use crate::run;
use std::fs::File;
use std::io;
use std::io::Write;
use test_parts::random;

// The bytes that are written at a time, and how often: 10 MB of noise, 573 KB of lines.
const CHUNK: usize = 4096;

const CHUNKS: u32 = 2560;

const LINE_CHUNKS: u32 = 140;

const SHOWN_CHUNKS: u32 = 11;

// Fills the chunk with noise: the number after the last.
fn fill(chunk: &mut [u8], seed: u64) -> u64 {
    let mut x = seed;
    for y in chunk.iter_mut() {
        x = random::next(x);
        *y = ((x >> 32) % 256) as u8;
    }
    x
}

// Writes a chunk of noise: the number after the last.
fn write_noise_chunk(file: &mut File, seed: u64) -> io::Result<u64> {
    let mut chunk = [0u8; CHUNK];
    let x = fill(&mut chunk, seed);
    file.write_all(&chunk)?;
    Ok(x)
}

// Writes so many chunks of noise.
fn write_noise(file: &mut File, chunks: u32) -> io::Result<()> {
    let mut x: u64 = 1;
    for _ in 0..chunks {
        x = write_noise_chunk(file, x)?;
    }
    Ok(())
}

// Fills the chunk with a pair of lines over and over.
fn fill_lines(chunk: &mut [u8]) {
    let lines = *b"up 0 1\ndown 0 1\n";
    for i in 0..chunk.len() {
        chunk[i] = lines[i % 16];
    }
}

// Writes a chunk of lines.
fn write_lines_chunk(file: &mut File) -> io::Result<()> {
    let mut chunk = [0u8; CHUNK];
    fill_lines(&mut chunk);
    file.write_all(&chunk)
}

// Writes so many chunks of lines.
fn write_lines(file: &mut File, chunks: u32) -> io::Result<()> {
    for _ in 0..chunks {
        write_lines_chunk(file)?;
    }
    Ok(())
}

// 10 MB of noise behind a beginning.
pub fn noise(rt: &HostRuntime, front: &[u8]) -> io::Result<()> {
    let mut file = run::new_file(rt)?;
    println!(rt; "noise")?;
    file.write_all(front)?;
    write_noise(&mut file, CHUNKS)?;
    run::last(rt, file, usize::MAX, "check")
}

// 71,680 lines that take a link up and down, and then the given ones, read by so many bytes at a time.
pub fn script(rt: &HostRuntime, end: &[u8], most: usize) -> io::Result<()> {
    let mut file = run::new_file(rt)?;
    println!(rt; "long script")?;
    file.write_all(b"radios 3\n")?;
    write_lines(&mut file, LINE_CHUNKS)?;
    file.write_all(end)?;
    run::last(rt, file, most, "numbers")
}

// Writes lines that take more than the front.
pub fn write_shown(file: &mut File) -> io::Result<()> {
    file.write_all(b"radios 3\n")?;
    write_lines(file, SHOWN_CHUNKS)
}

// These lines, read by so many bytes at a time, and shown.
pub fn shown(rt: &HostRuntime, most: usize) -> io::Result<()> {
    let mut file = run::new_file(rt)?;
    println!(rt; "shown script")?;
    write_shown(&mut file)?;
    run::shown(rt, file, most)
}
