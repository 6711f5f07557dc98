// Questions 9 and 10: is the image whole blocks, and does every block pass its check?
ghost use Rattle.std.specs.Prelude.{◌≡◌, ◌<◌, ◌≤◌, ◌+◌, ◌/◌};
ghost use Rattle.lists.specs.Kit.{length, take};
ghost use Rattle.mesh.specs.Image.{block_bytes, check_sum, block_check, checks_good};
ghost use Rattle.image.specs.Columns.{ByteFits, ByteAdded, Columns, ColumnsFit, columns_total};
ghost use Rattle.calls.specs.Answers.{call_number};
ghost use Rattle.calls.specs.Chains.{block_refusal};

use super::{bytes, layout};
use calls::Refusal;

// The check is summed by columns, with no product for each byte, which the compiler does for many columns at a time: byte i stands in
// column i % 24 of run i / 24.
const COLUMNS: usize = 24;

// A turn adds a byte to one column of each third: of that the compiler makes three sums of eight columns, which stay in registers.
const THIRD: usize = COLUMNS / 3;

// The whole runs before the check.
const RUNS: usize = 21;

// Adds byte i to the sum of column p, and this sum to the sum of the sums.
fn add_byte(block: &[u8], i: usize, p: usize, sums: &mut [u16], twice: &mut [u16])
    requires { ByteFits block.now i p sums.old twice.old }
    ensures { ByteAdded block.now i p sums.old twice.old sums.new twice.new }
{
    let sum = sums[p] + block[i] as u16;
    sums[p] = sum;
    twice[p] = twice[p] + sum;
}

// Adds run r.
fn add_run(block: &[u8], r: usize, sums: &mut [u16], twice: &mut [u16])
    requires { (r < 21) × (504 ≤ length block.now) × Columns block.now r sums.old twice.old }
    ensures { Columns block.now (r + 1) sums.new twice.new }
{
    for p in 0..THIRD {
        add_byte(block, COLUMNS * r + p, p, sums, twice);
        add_byte(block, COLUMNS * r + (THIRD + p), THIRD + p, sums, twice);
        add_byte(
            block,
            COLUMNS * r + (2 * THIRD + p),
            2 * THIRD + p,
            sums,
            twice,
        );
    }
}

// Adds all runs.
fn add_runs(block: &[u8], sums: &mut [u16], twice: &mut [u16])
    requires { (504 ≤ length block.now) × Columns block.now 0 sums.old twice.old }
    ensures { Columns block.now 21 sums.new twice.new }
{
    for r in 0..RUNS {
        add_run(block, r, sums, twice);
    }
}

// What the columns add to the check: a byte of column p stands 24 places before 505 + p for each run from its own on.
fn columns_total(sums: &[u16], twice: &[u16]) -> u32
    requires { ColumnsFit sums.now twice.now }
    ensures { result ≡ columns_total sums.now twice.now 24 }
{
    let mut sum: u32 = 0;
    for p in 0..COLUMNS {
        sum += (p as u32 + 505) * sums[p] as u32 - 24 * twice[p] as u32;
    }
    sum
}

// The check of the first 504 bytes.
fn check_runs(block: &[u8]) -> u32
    requires { 504 ≤ length block.now }
    ensures { result ≡ check_sum (take 504 block.now) }
{
    let mut sums = [0u16; COLUMNS];
    let mut twice = [0u16; COLUMNS];
    add_runs(block, &mut sums, &mut twice);
    columns_total(&sums, &twice)
}

// The check of the first `count` bytes, of which `start` is that of the first `from`.
fn check_rest(block: &[u8], from: usize, count: usize, start: u32) -> u32
    requires { (from ≤ count) × (count ≤ 508) × (count ≤ length block.now) × (start ≡ check_sum (take from block.now)) }
    ensures { result ≡ check_sum (take count block.now) }
{
    let mut sum = start;
    for i in from..count {
        sum += block[i] as u32 * (i as u32 + 1);
    }
    sum
}

// The check of a block: the sum over its first 508 bytes of byte × (position + 1); over all bytes where there are fewer. As `check_rest` serves
// both, its loop stays one: with the last four bytes written out the compiler no longer adds eight columns at a time.
pub fn check_sum(block: &[u8]) -> u32
    ensures { result ≡ check_sum (take 508 block.now) }
{
    if block.len() < layout::BODY {
        return check_rest(block, 0, block.len(), 0);
    }
    check_rest(block, COLUMNS * RUNS, layout::BODY, check_runs(block))
}

// Whether block i passes its check.
pub fn is_good(image: &[u8], i: usize) -> bool
    requires { i < length image.now / block_bytes }
    ensures { result ≡ block_check image.now i }
{
    let at = layout::BLOCK * i;
    let end = at + layout::BLOCK;
    let sum = check_sum(&image[at..end]);
    sum == bytes::long_at(image, at + layout::BODY)
}

// Question 10: whether every block passes its check.
fn all_good(image: &[u8]) -> bool
    ensures { result ≡ checks_good image.now }
{
    let count = image.len() / layout::BLOCK;
    for i in 0..count {
        if !is_good(image, i) {
            return false;
        }
    }
    true
}

// Questions 9 and 10.
pub fn ask(image: &[u8]) -> Result<(), Refusal>
    ensures { call_number result ≡ block_refusal image.now }
{
    let length = image.len();
    if length == 0 {
        return Err(Refusal::ImageSize);
    }
    if length % layout::BLOCK != 0 {
        return Err(Refusal::ImageSize);
    }
    if !all_good(image) {
        return Err(Refusal::ImageCheck);
    }
    Ok(())
}
