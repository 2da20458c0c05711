// Rows of any kind, written: the size of a cell and of what stands around a row's cells; a row's start, its cells and its end, from the cells that
// the scratch holds, or from the input once more.
#![tactic(auto)]

ghost use Rattle.std.specs.Prelude.{◌≡◌, false, ℕ, ◌+◌, ◌<◌, ◌≤◌, drop, length};
ghost use Rattle.table.specs.Cell.{bound, most_elements};
ghost use Rattle.table.specs.Clauses.{ShownUpTo, ShownWithin, shown_as, size_as, size_of};
ghost use Rattle.table.specs.Wrote.{Wrote};
ghost use Rattle.table.specs.ColumnList.{listed};
ghost use Rattle.rows.specs.Bounds.{Within};
ghost use Rattle.rows.specs.Stream.{read_cell, write_cell, write_end};
ghost use Rattle.row_writing.specs.Clauses.{HeldAt, HeldIs, HeldReady, HeldWithin, Rewritten, SizeWithin, cell_bytes, cell_form, held_form, held_next, put_form, read_form, row_bytes, start_bytes};

use binary_writing::{size_binary, size_binary2, write_binary, write_binary2};
use flags::write_flags;
use row_reading::{flag_of, read_cell};
use row_tags::{write_row_end, write_row_start};
use table::{Column, Columns, Reason, Rows};
use tabledata_writing::{size_text, write_text};

// A row while it is written: the next cell's place in the input, or in the scratch that holds it, and in the output.
#[derive(Clone, Copy)]
struct Writing {
    at: usize,
    to: usize,
}

// ---- what each kind of rows does

pub fn size_cell(
    to: Rows,
    column: Column,
    shown: Option<usize>,
    scratch: &[i64],
) -> Result<usize, Reason>
    requires { (bound column.len ≤ most_elements) × ShownUpTo (bound column.len) shown × ShownWithin scratch.now shown }
    ensures { (size_as result ≡ size_of (write_cell to column (shown_as scratch.now shown))) × SizeWithin result }
{
    match to {
        Rows::TableData => size_text(column, shown, scratch),
        Rows::Binary => size_binary(column, shown, scratch),
        Rows::Binary2 => Ok(size_binary2(column, shown, scratch)),
    }
}

// A cell at a place of the output; the place after it.
pub fn write_cell(
    to: Rows,
    column: Column,
    shown: Option<usize>,
    scratch: &[i64],
    out: &mut [u8],
    at: usize,
) -> usize
    requires len_bound { (bound column.len ≤ most_elements) × ShownUpTo (bound column.len) shown × ShownWithin scratch.now shown }
    requires scratch_in_bounds { at + length (cell_bytes to column (shown_as scratch.now shown)) ≤ length out.old }
    ensures { Wrote out.old at (cell_bytes to column (shown_as scratch.now shown)) out.new result }
{
    match to {
        Rows::TableData => write_text(column, shown, scratch, out, at),
        Rows::Binary => write_binary(column, shown, scratch, out, at),
        Rows::Binary2 => write_binary2(column, shown, scratch, out, at),
    }
}

pub fn start_size(to: Rows, count: usize) -> usize
    requires { count ≤ 64 }
    ensures { (result ≤ 8) × ((nulls : ℕ) → length (start_bytes to count nulls) ≡ result) }
{
    match to {
        Rows::TableData => 4,
        Rows::Binary => 0,
        Rows::Binary2 => (count + 7) / 8,
    }
}

// What begins a row, at a place of the output; the place after it.
pub fn write_start(to: Rows, count: usize, nulls: u64, out: &mut [u8], at: usize) -> usize
    requires { (at + length (start_bytes to count nulls) ≤ length out.old) × (count ≤ 64) }
    ensures { Wrote out.old at (start_bytes to count nulls) out.new result }
{
    match to {
        Rows::TableData => write_row_start(out, at),
        Rows::Binary => at,
        Rows::Binary2 => write_flags(nulls, count, out, at),
    }
}

fn end_size(to: Rows) -> usize
    ensures { (result ≤ 8) × (length (write_end to) ≡ result) }
{
    match to {
        Rows::TableData => 6,
        Rows::Binary => 0,
        Rows::Binary2 => 0,
    }
}

// What ends a row.
pub fn write_end(to: Rows, out: &mut [u8], at: usize) -> usize
    requires { at + length (write_end to) ≤ length out.old }
    ensures { Wrote out.old at (write_end to) out.new result }
{
    match to {
        Rows::TableData => write_row_end(out, at),
        Rows::Binary => at,
        Rows::Binary2 => at,
    }
}

// The bytes of what stands around a row's cells.
pub fn frame_size(to: Rows, count: usize) -> usize
    requires { count ≤ 64 }
    ensures { (result ≤ 16) × ((nulls : ℕ) → length (start_bytes to count nulls) + length (write_end to) ≡ result) }
{
    start_size(to, count) + end_size(to)
}

// ---- a row from the input, read once more

// Reads a cell once more and writes it.
fn rewrite(
    w: Writing,
    from: Rows,
    to: Rows,
    column: Column,
    flagged: bool,
    s: &[u8],
    scratch: &mut [i64],
    out: &mut [u8],
) -> Writing
    requires at_in_bounds { (w.at ≤ length s.now) × (bound column.len ≤ most_elements) × (most_elements ≤ length scratch.old) }
    requires s_in_bounds { w.to + length (cell_form to column (read_cell from column flagged (drop w.at s.now))) ≤ length out.old }
    ensures rewritten { Rewritten (read_cell from) to column flagged s.now w out.old out.new result }
    ensures scratch_len_unchanged { length scratch.new ≡ length scratch.old }
{
    match read_cell(from, s, w.at, column, flagged, scratch) {
        Err(_reason) => Writing {
            at: s.len(),
            to: w.to,
        },
        Ok(found) => {
            let e = write_cell(to, column, found.shown, scratch, out, w.to);
            Writing {
                at: found.next,
                to: e,
            }
        }
    }
}

// Writes a row that fits, its cells read once more; the place after it.
fn write_row(
    cols: Columns,
    from: Rows,
    to: Rows,
    s: &[u8],
    flags: u64,
    body: usize,
    nulls: u64,
    out: &mut [u8],
    at: usize,
    scratch: &mut [i64],
) -> usize
    requires within { Within (listed cols) × (body ≤ length s.now) × (most_elements ≤ length scratch.old) }
    requires s_in_bounds { at + length (row_bytes to cols.count nulls (read_form from to cols flags (drop body s.now))) ≤ length out.old }
    ensures wrote { Wrote out.old at (row_bytes to cols.count nulls (read_form from to cols flags (drop body s.now))) out.new result }
    ensures scratch_len_unchanged { length scratch.new ≡ length scratch.old }
{
    let count = cols.count;
    let first = write_start(to, count, nulls, out, at);
    let mut w = Writing {
        at: body,
        to: first,
    };
    for j in 0..count {
        let c = cols.list[j];
        let flagged = flag_of(from, flags, count, j);
        w = rewrite(w, from, to, c, flagged, s, scratch, out);
    }
    let last = w.to;
    write_end(to, out, last)
}

// ---- a row from the scratch

// What the scratch holds at a place: so many elements behind it, or null.
fn held_at(scratch: &[i64], at: usize) -> Option<usize>
    requires { at < length scratch.now }
    ensures { HeldIs scratch.now at result }
{
    let n = scratch[at];
    if 0 <= n {
        return Some(n as usize);
    }
    None
}

// Writes a cell that the scratch holds.
fn write_held_cell(w: Writing, to: Rows, column: Column, scratch: &[i64], out: &mut [u8]) -> Writing
    requires len_bound { (bound column.len ≤ most_elements) × HeldAt column (drop w.at scratch.now) }
    requires scratch_in_bounds { w.to + length (cell_form to column (held_next column false (drop w.at scratch.now))) ≤ length out.old }
    ensures { Rewritten held_next to column false scratch.now w out.old out.new result }
{
    let shown = held_at(scratch, w.at);
    let first = w.at + 1;
    let e = write_cell(to, column, shown, &scratch[first..], out, w.to);
    Writing {
        at: first + shown.unwrap_or(0),
        to: e,
    }
}

// Writes a row that fits, whose cells the scratch holds; the place after it.
fn write_held_row(
    cols: Columns,
    to: Rows,
    nulls: u64,
    scratch: &[i64],
    out: &mut [u8],
    at: usize,
) -> usize
    requires within { Within (listed cols) × HeldWithin (listed cols) scratch.now }
    requires scratch_in_bounds { at + length (row_bytes to cols.count nulls (held_form to cols scratch.now)) ≤ length out.old }
    ensures { Wrote out.old at (row_bytes to cols.count nulls (held_form to cols scratch.now)) out.new result }
{
    let count = cols.count;
    let first = write_start(to, count, nulls, out, at);
    let mut w = Writing { at: 0, to: first };
    for j in 0..count {
        let c = cols.list[j];
        w = write_held_cell(w, to, c, scratch, out);
    }
    let last = w.to;
    write_end(to, out, last)
}

// Writes a row that fits, from the scratch where that holds its cells, in so much of it; else they are read once more. The place after it.
pub fn put_row(
    cols: Columns,
    from: Rows,
    to: Rows,
    s: &[u8],
    flags: u64,
    body: usize,
    nulls: u64,
    holding: Option<usize>,
    out: &mut [u8],
    at: usize,
    scratch: &mut [i64],
) -> usize
    requires within { Within (listed cols) × (body ≤ length s.now) × (most_elements ≤ length scratch.old) × HeldReady (listed cols) scratch.old holding }
    requires holding_in_bounds { at + length (row_bytes to cols.count nulls (put_form from to cols flags (drop body s.now) scratch.old holding)) ≤ length out.old }
    ensures wrote { Wrote out.old at (row_bytes to cols.count nulls (put_form from to cols flags (drop body s.now) scratch.old holding)) out.new result }
    ensures scratch_len_unchanged { length scratch.new ≡ length scratch.old }
{
    match holding {
        Some(_n) => write_held_row(cols, to, nulls, scratch, out, at),
        None => write_row(cols, from, to, s, flags, body, nulls, out, at, scratch),
    }
}
