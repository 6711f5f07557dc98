// The input of a run, for all programs: what a read finds, and a front filled by reads. A failed read is told from the end of the input, and
// an interrupted one goes on.
ghost use Rattle.std.specs.Prelude.{◌≡◌, ◌≤◌};
ghost use Rattle.lists.specs.Kit.{false, min, length};
ghost use Rattle.player.specs.Counts.{IsPrefixLen};
ghost use Rattle.player.specs.Words.{standard_ends};
ghost use Rattle.player.specs.Reads.{goes_on, most_reads, failure, found, Found, FillsOn, Fills};

use std::io::{Error, IsTerminal, Read, Stderr, Stdin, Stdout};

// What `--version` prints.
pub const VERSION: [u8; 18] = *b"summerbugle 1.0.0\n";

// Where a run reads and writes.
#[derive(Drop)]
pub struct Ends<I, O, E> {
    pub input: I,
    pub output: O,
    pub errors: E,
}

// A program's own input, output and errors.
pub fn standard(rt: &HostRuntime) -> Ends<Stdin, Stdout, Stderr>
    ensures { result ≡ standard_ends }
{
    Ends {
        input: rt.stdin(),
        output: rt.stdout(),
        errors: rt.stderr(),
    }
}

// Whether this is a terminal.
pub fn is_terminal<T: IsTerminal>(end: &T) -> bool {
    end.is_terminal()
}

// Why a read fails.
#[derive(Clone, Copy)]
pub enum Unread {
    // The input is a folder.
    Folder,
    // A read would have to wait, and may not.
    Blocks,
    // The descriptor is not open for reading.
    Closed,
    // The device says so.
    Device,
    // It fails in another way.
    Other,
}

// What a read finds: bytes, or that it was interrupted; the end of the input; or why it failed.
#[derive(Clone, Copy)]
pub enum State {
    GoesOn,
    End,
    Failed(Unread),
}

// What a read brought: how many bytes, and what it found.
#[derive(Clone, Copy)]
pub struct Brought {
    pub count: usize,
    pub state: State,
}

// Linux' error numbers.
const EINTR: i32 = 4;

const EIO: i32 = 5;

const EBADF: i32 = 9;

const EAGAIN: i32 = 11;

const EISDIR: i32 = 21;

// The bytes that one read brings at most.
pub(crate) const CHUNK_BYTES: usize = 4096;

// More than any input uses up, and few enough that no line's number passes 64 bits.
const READS: u64 = 1 << 51;

// The reads that a run has.
pub fn most() -> u64
    ensures { result ≡ most_reads }
{
    READS
}

// A length, cut to a buffer.
pub fn within(size: usize, buffer: &[u8]) -> usize
    ensures counts { IsPrefixLen result buffer.now }
    ensures least { result ≡ min size (length buffer.now) }
{
    if size < buffer.len() {
        return size;
    }
    buffer.len()
}

// What a read that failed found, by its error number.
fn finds(error: i32) -> State
    ensures { result ≡ failure error }
{
    if error == EINTR {
        return State::GoesOn;
    }
    if error == EISDIR {
        return State::Failed(Unread::Folder);
    }
    if error == EAGAIN {
        return State::Failed(Unread::Blocks);
    }
    if error == EBADF {
        return State::Failed(Unread::Closed);
    }
    if error == EIO {
        return State::Failed(Unread::Device);
    }
    State::Failed(Unread::Other)
}

// What a read brought into the chunk that answered `got`: how many bytes, or the number of its error.
pub fn told(got: Result<usize, i32>, chunk: &[u8]) -> Brought
    ensures counts { IsPrefixLen result.count chunk.now }
    ensures told { result ≡ found got (length chunk.now) }
{
    if chunk.len() == 0 {
        return Brought {
            count: 0,
            state: State::Failed(Unread::Other),
        };
    }
    let count = match got {
        Ok(count) => within(count, chunk),
        Err(error) => {
            return Brought {
                count: 0,
                state: finds(error),
            };
        }
    };
    // A read that brings few bytes is not the last one.
    if count == 0 {
        return Brought {
            count: 0,
            state: State::End,
        };
    }
    Brought {
        count,
        state: State::GoesOn,
    }
}

// The number of an error; 0 where the system has none for it.
fn number_of(error: Error) -> i32 {
    error.raw_os_error().unwrap_or(0)
}

// One read, of at most `most` bytes, into the front of a chunk.
pub fn read<I: Read>(input: &mut I, most: usize, chunk: &mut [u8]) -> Brought
    ensures counts { IsPrefixLen result.count chunk.new }
    ensures few { result.count ≤ most }
    ensures found { Found (min most (length chunk.old)) result }
{
    let size = within(most, chunk);
    let got = input.read(&mut chunk[..size]).map_err(number_of);
    told(got, &chunk[..size])
}

// One read, of at most `most` bytes, into the buffer from `at` on, by way of a chunk: the place after what it brought.
fn fill_on<I: Read>(
    input: &mut I,
    most: usize,
    at: usize,
    chunk: &mut [u8],
    buffer: &mut [u8],
) -> Brought
    requires { at ≤ length buffer.old }
    ensures counts { IsPrefixLen result.count buffer.new }
    ensures fills { FillsOn buffer.old at result buffer.new }
{
    let room = tables::fill::least(most, buffer.len() - at);
    let got = read(input, room, chunk);
    let count = text::put_text(buffer, at, &chunk[..got.count]);
    Brought {
        count,
        state: got.state,
    }
}

// Whether no further read is wanted: the last one is at the end or failed, the buffer is full, or its bytes are a line and one is wanted.
fn is_filled(line: bool, got: Brought, buffer: &[u8]) -> bool
    ensures { result ≡ false → got.state ≡ goes_on }
{
    let State::GoesOn = got.state else {
        return true;
    };
    if buffer.len() <= got.count {
        return true;
    }
    line && 0 < got.count && buffer[got.count - 1] == b'\n'
}

// Fills the front of a buffer by reads of at most `most` bytes each, to the buffer's end, the end of the input or a read that fails; where
// `line` is set, also to a read that ends in a line feed. How many bytes it has, and what the last read found.
pub fn fill<I: Read>(input: &mut I, most: usize, line: bool, buffer: &mut [u8]) -> Brought
    ensures counts { IsPrefixLen result.count buffer.new }
    ensures fills { Fills buffer.old result buffer.new }
{
    let mut chunk = [0u8; CHUNK_BYTES];
    let mut at: usize = 0;
    for _ in 0..READS {
        let got = fill_on(input, most, at, &mut chunk, buffer);
        if is_filled(line, got, buffer) {
            return got;
        }
        at = got.count;
    }
    Brought {
        count: at,
        state: State::Failed(Unread::Other),
    }
}
