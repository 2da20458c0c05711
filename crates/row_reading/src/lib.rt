// Rows of any kind, read: where the input ends, what begins and ends a row, its flags and its cells; and rows that are passed over.
#![tactic(auto)]

ghost use Rattle.std.specs.Prelude.{◌≡◌, ◌<◌, ◌≤◌, drop, length};
ghost use Rattle.table.specs.Cell.{bound, most_elements};
ghost use Rattle.table.specs.Clauses.{Reads};
ghost use Rattle.table.specs.Outcome.{answer_of};
ghost use Rattle.table.specs.ColumnList.{listed};
ghost use Rattle.rows.specs.Bounds.{Within};
ghost use Rattle.rows.specs.Stream.{at_end, flag, passed, read, read_cell, read_row};
ghost use Rattle.row_reading.specs.Clauses.{Begins, Closes, PassesCell, PassesCells, PassesRow, cells_end, flags_in};

use binary_reading::{read_binary, read_binary2};
use flags::{is_flagged, read_flags};
use row_tags::{row_begins, row_ends};
use table::{Answer, Column, Columns, Found, Reason, Refused, Rows};
use tabledata_reading::read_text;
use text::skip_white;

// What begins a row: its flags, as a word whose digits in base 2 they are, and where its cells begin.
#[derive(Clone, Copy)]
pub struct Begin {
    pub flags: u64,
    pub cells: usize,
}

// ---- what each kind of rows does

// Is nothing left of the input but what may stand behind the last row?
pub fn at_end(from: Rows, s: &[u8], at: usize) -> bool
    requires { at ≤ length s.now }
    ensures { result ≡ at_end from (drop at s.now) }
{
    match from {
        Rows::TableData => skip_white(s, at) == s.len(),
        Rows::Binary => at == s.len(),
        Rows::Binary2 => at == s.len(),
    }
}

pub fn begin_row(from: Rows, s: &[u8], at: usize, count: usize) -> Result<Begin, Reason>
    requires { (at ≤ length s.now) × (1 ≤ count) × (count ≤ 64) }
    ensures { Begins from count s.now at result }
{
    match from {
        Rows::TableData => match row_begins(s, at) {
            None => Err(Reason::Markup),
            Some(cells) => Ok(Begin { flags: 0, cells }),
        },
        Rows::Binary => Ok(Begin {
            flags: 0,
            cells: at,
        }),
        Rows::Binary2 => {
            let f = read_flags(s, at, count)?;
            Ok(Begin {
                flags: f.word,
                cells: f.next,
            })
        }
    }
}

// What ends a row: the place after it.
pub fn end_row(from: Rows, s: &[u8], at: usize) -> Result<usize, Reason>
    requires { at ≤ length s.now }
    ensures { Closes from s.now at result }
{
    match from {
        Rows::TableData => row_ends(s, at).ok_or(Reason::Markup),
        Rows::Binary => Ok(at),
        Rows::Binary2 => Ok(at),
    }
}

// The flag of column i.
pub fn flag_of(from: Rows, flags: u64, count: usize, i: usize) -> bool
    requires { (i < count) × (count ≤ 64) }
    ensures { result ≡ flag (drop i (flags_in from count flags)) }
{
    match from {
        Rows::TableData => false,
        Rows::Binary => false,
        Rows::Binary2 => is_flagged(flags, count, i),
    }
}

pub fn read_cell(
    from: Rows,
    s: &[u8],
    at: usize,
    column: Column,
    flagged: bool,
    scratch: &mut [i64],
) -> Result<Found, Reason>
    requires { (at ≤ length s.now) × (bound column.len ≤ most_elements) × (most_elements ≤ length scratch.old) }
    ensures { Reads (read_cell from column flagged (drop at s.now)) s.now at scratch.old scratch.new result }
{
    match from {
        Rows::TableData => read_text(s, at, column, scratch),
        Rows::Binary => read_binary(s, at, column, scratch),
        Rows::Binary2 => read_binary2(s, at, column, flagged, scratch),
    }
}

// ---- rows that are passed over

// A cell that is passed over: the place after it.
fn pass_cell(
    from: Rows,
    s: &[u8],
    at: usize,
    column: Column,
    flagged: bool,
    scratch: &mut [i64],
) -> Result<usize, Reason>
    requires { (at ≤ length s.now) × (bound column.len ≤ most_elements) × (most_elements ≤ length scratch.old) }
    ensures passes_cell { PassesCell (read_cell from column flagged (drop at s.now)) s.now at result }
    ensures scratch_len_unchanged { length scratch.new ≡ length scratch.old }
{
    let found = read_cell(from, s, at, column, flagged, scratch)?;
    Ok(found.next)
}

// The cells of a row and what ends it, from where its cells begin.
fn pass_cells(
    cols: Columns,
    from: Rows,
    s: &[u8],
    flags: u64,
    body: usize,
    scratch: &mut [i64],
) -> Result<usize, Refused>
    requires { Within (listed cols) × (body ≤ length s.now) × (most_elements ≤ length scratch.old) }
    ensures passes_cells { PassesCells (cells_end from (listed cols) (flags_in from cols.count flags) (drop body s.now)) s.now body result }
    ensures scratch_len_unchanged { length scratch.new ≡ length scratch.old }
{
    let count = cols.count;
    let mut at = body;
    for i in 0..count {
        let c = cols.list[i];
        let flagged = flag_of(from, flags, count, i);
        match pass_cell(from, s, at, c, flagged, scratch) {
            Err(reason) => return Err(Refused { reason, column: i }),
            Ok(next) => {
                at = next;
            }
        }
    }
    match end_row(from, s, at) {
        Err(reason) => Err(Refused {
            reason,
            column: count,
        }),
        Ok(next) => Ok(next),
    }
}

// The row at a place.
pub fn pass_row(
    cols: Columns,
    from: Rows,
    s: &[u8],
    at: usize,
    scratch: &mut [i64],
) -> Result<usize, Refused>
    requires { Within (listed cols) × (at ≤ length s.now) × (most_elements ≤ length scratch.old) }
    ensures passes_row { PassesRow (read_row from (listed cols) (drop at s.now)) s.now at result }
    ensures scratch_len_unchanged { length scratch.new ≡ length scratch.old }
{
    let count = cols.count;
    match begin_row(from, s, at, count) {
        Err(reason) => Err(Refused { reason, column: 0 }),
        Ok(b) => pass_cells(cols, from, s, b.flags, b.cells, scratch),
    }
}

// A stream from a place on, behind so many rows: how many rows it has in all, or the refusal of the first that does not read.
pub fn pass_rows(
    cols: Columns,
    from: Rows,
    s: &[u8],
    start: usize,
    before: u64,
    scratch: &mut [i64],
) -> Answer
    requires { Within (listed cols) × (start ≤ length s.now) × (before ≤ start) × (most_elements ≤ length scratch.old) }
    ensures value { result ≡ answer_of (passed before (read from (listed cols) (drop start s.now))) }
    ensures scratch_len_unchanged { length scratch.new ≡ length scratch.old }
{
    let mut at = start;
    let mut rows = before;
    while !at_end(from, s, at) {
        match pass_row(cols, from, s, at, scratch) {
            Err(refused) => {
                return Answer {
                    number: refused.reason.number(),
                    row: rows,
                    column: refused.column as u64,
                    rows,
                    bytes: 0,
                };
            }
            Ok(next) => {
                at = next;
            }
        }
        rows += 1;
    }
    Answer {
        number: 0,
        row: 0,
        column: 0,
        rows,
        bytes: 0,
    }
}
