// The site sheet on a printed page: all radios with their numbers, ascending along the lines, in cells of 8 columns, 8 cells to a line.
// A page that is shorter than the sheet is refused by 12; on a longer one each byte has its place, and none asks whether it fits.
#![tactic(auto)]

ghost use Rattle.std.specs.Prelude.{◌≡◌, ◌+◌, ◌*◌, ◌%◌, ◌<◌, ◌≤◌};
ghost use Rattle.lists.specs.Kit.{length, replicate};
ghost use Rattle.mesh.specs.Lent.{read_of};
ghost use Rattle.text.specs.Text.{space, digit_byte};
ghost use Rattle.text.specs.Print.{buffer_at, put, Puts};
ghost use Rattle.calls.specs.SheetCells.{digit_column, CellsFit};
ghost use Rattle.calls.specs.Sheet.{cell, cells, sheet_line, sheet_lines, sheet};
ghost use Rattle.calls.specs.Sheet.{cell_width, line_cells, line_bytes};
ghost use Rattle.calls.specs.Answers.{value_reply};
ghost use Rattle.calls.specs.CallContracts.{SheetContract};

use calls::Refusal;
use mesh::Lent;

// The columns of a cell.
const CELL: usize = 8;

// The cells of a line.
const CELLS: usize = 8;

// The columns of a line.
const WIDTH: usize = 64;

// Puts so many spaces.
fn put_spaces(page: &mut [u8], at: usize, count: usize)
    requires { at + count ≤ length page.old }
    ensures { Puts (buffer_at page.old at) (replicate count space) (buffer_at page.new (at + count)) }
{
    for i in 0..count {
        page[at + i] = b' ';
    }
}

// The byte of the last digit of x.
fn last_digit(x: u32) -> u8
    ensures { result ≡ digit_byte (x % 10) }
{
    b'0' + (x % 10) as u8
}

// The column of x for its digit that counts p: a space where x has no such digit.
fn column(p: u32, x: u32) -> u8
    requires { 0 < p }
    ensures { result ≡ digit_column p x }
{
    if x < p {
        return b' ';
    }
    last_digit(x / p)
}

// Puts the cell of radio v with number x, column by column.
fn put_cell(page: &mut [u8], at: usize, v: u32, x: u32)
    requires { (at + cell_width ≤ length page.old) × (v < 1000) × (x < 100) }
    ensures { Puts (buffer_at page.old at) (cell v x) (buffer_at page.new (at + cell_width)) }
{
    page[at] = column(100, v);
    page[at + 1] = column(10, v);
    page[at + 2] = last_digit(v);
    page[at + 3] = b':';
    page[at + 4] = column(10, x);
    page[at + 5] = last_digit(x);
    page[at + 6] = b' ';
    page[at + 7] = b' ';
}

// Puts the cells of k radios from v on.
fn put_cells(page: &mut [u8], at: usize, numbers: &[u8], v: usize, k: usize)
    requires fit { CellsFit numbers.now }
    requires inside { v + k ≤ length numbers.now }
    requires room { at + cell_width * k ≤ length page.old }
    ensures { Puts (buffer_at page.old at) (cells numbers.now v k)
        (buffer_at page.new (at + cell_width * k)) }
{
    for i in 0..k {
        let w = v + i;
        put_cell(page, at + CELL * i, w as u32, numbers[w] as u32);
    }
}

// Puts line i: the cells of its radios, spaces up to the last column, a line feed.
fn put_line(page: &mut [u8], at: usize, numbers: &[u8], i: usize)
    requires fit { CellsFit numbers.now }
    requires inside { line_cells * i < length numbers.now }
    requires room { at + line_bytes ≤ length page.old }
    ensures { Puts (buffer_at page.old at) (sheet_line numbers.now i)
        (buffer_at page.new (at + line_bytes)) }
{
    let first = CELLS * i;
    let k = tables::fill::least(CELLS, numbers.len() - first);
    put_cells(page, at, numbers, first, k);
    put_spaces(page, at + CELL * k, WIDTH - CELL * k);
    page[at + WIDTH] = b'\n';
}

// How many lines n radios take.
fn lines(n: usize) -> usize
    requires { n ≤ 1000 }
    ensures { result ≡ sheet_lines n }
{
    (n + 7) / CELLS
}

// Puts the sheet from the page's first byte on.
fn put_sheet(page: &mut [u8], numbers: &[u8])
    requires fit { CellsFit numbers.now }
    requires room { line_bytes * sheet_lines (length numbers.now) ≤ length page.old }
    ensures { page.new ≡ (put (buffer_at page.old 0) (sheet numbers.now)).bytes }
{
    let count = lines(numbers.len());
    for i in 0..count {
        put_line(page, (WIDTH + 1) * i, numbers, i);
    }
}

// The sheet's length in bytes; the sheet stands in front of the page, and later bytes keep their content. Refused by questions 1 to 3
// and 12: then the page keeps its content.
pub fn sheet(t: &Lent, page: &mut [u8]) -> Result<u32, Refusal>
    ensures { SheetContract t.now.radios (read_of t.now) page.old (value_reply result) page.new }
{
    if let Err(refusal) = soundness::ask(t, true) {
        return Err(refusal);
    }
    let size = (WIDTH + 1) * lines(t.radios as usize);
    if page.len() < size {
        return Err(Refusal::Page);
    }
    put_sheet(page, t.numbers);
    Ok(size as u32)
}
