// A cell of TABLEDATA, moved from the input into a row's buffer as any kind of rows has it: what is plain at once, everything else is left to the
// careful way.
#![tactic(auto)]

ghost use Rattle.std.specs.Prelude.{Bool, true, ◌≡◌, ◌+◌, ◌≤◌, length};
ghost use Rattle.cell_putting.specs.Clauses.{most_room};
ghost use Rattle.moving.specs.Cells.{MovesCell, MovesRead, NeverNull};
ghost use Rattle.number.specs.Clauses.{is_signed, width_of};
ghost use Rattle.table.specs.Cell.{bound, is_scalar, most_elements};
ghost use Rattle.table.specs.Shape.{Truths, Whole, shape};
ghost use Rattle.table.specs.declared.Rows.TheVariants.{Binary, Binary2, TableData};
ghost use Rattle.text.specs.Clauses.{Skipped};
ghost use Rattle.text_moving.specs.Clauses.{ClosesAt, Counts, OpensAs, TextRead};

use cell_putting::{
    Scalar, count_size, fill_up, is_text, put_close, put_integer, put_null, put_open, put_truth,
    scalar_of,
};
use content_copying::copy_content;
use content_reading::{read_content, text_truth};
use integer_reading::text_integer;
use integers::four_bytes;
use moving::{Content, Moved, One};
use number::Integer;
use table::{Column, Len, Rows, is_char, is_declared, same_integer};
use text::skip_white;

// ---- tags

// How a cell begins: `<TD/>` or `<TD>`, and the place after it.
#[derive(Clone, Copy)]
pub enum Opening {
    Empty(usize),
    Content(usize),
}

// The place after white space: mostly there is none.
fn cell_place(s: &[u8], at: usize) -> usize
    requires { at + 1 ≤ length s.now }
    ensures { Skipped s.now at result }
{
    if s[at] == b'<' {
        return at;
    }
    skip_white(s, at)
}

fn open_cell(s: &[u8], at: usize) -> Option<Opening>
    requires { at ≤ length s.now }
    ensures { OpensAs s.now at result }
{
    if s.len() <= at {
        return None;
    }
    let place = cell_place(s, at);
    if s.len() - place < 5 {
        return None;
    }
    let x = four_bytes(s, place);
    if x == 0x3c54443e {
        return Some(Opening::Content(place + 4));
    }
    if x != 0x3c54442f {
        return None;
    }
    if s[place + 4] != b'>' {
        return None;
    }
    Some(Opening::Empty(place + 5))
}

// Does a bare `</TD>` stand here?
fn closes(s: &[u8], at: usize) -> bool
    requires { at ≤ length s.now }
    ensures { result ≡ true → ClosesAt s.now at }
{
    if s.len() - at < 5 {
        return false;
    }
    if four_bytes(s, at) != 0x3c2f5444 {
        return false;
    }
    s[at + 4] == b'>'
}

// ---- one element of a scalar

fn move_integer(
    to: Rows,
    column: Column,
    integer: Integer,
    s: &[u8],
    from: usize,
    row: &mut [u8],
    o: usize,
) -> Option<Moved>
    requires { (from ≤ length s.now) × (bound column.len ≤ most_elements) × (o + most_room ≤ length row.old) }
    ensures { is_scalar column ≡ true → shape column.kind ≡ Whole (is_signed integer) (width_of integer) → MovesRead (TextRead column s.now from) TableData to column row.old o row.new result }
{
    let One {
        value: z,
        next: end,
    } = text_integer(s, from, integer)?;
    if !closes(s, end) {
        return None;
    }
    let null = column.null;
    if is_declared(null, z) {
        return put_null(to, column, end + 5, row, o);
    }
    let e = put_integer(to, integer, z, row, o);
    Some(Moved {
        next: end + 5,
        end: e,
        null: false,
    })
}

fn move_truth(
    to: Rows,
    column: Column,
    s: &[u8],
    from: usize,
    row: &mut [u8],
    o: usize,
) -> Option<Moved>
    requires { (from ≤ length s.now) × (bound column.len ≤ most_elements) × (o + most_room ≤ length row.old) }
    ensures { is_scalar column ≡ true → shape column.kind ≡ Truths → MovesRead (TextRead column s.now from) TableData to column row.old o row.new result }
{
    let One {
        value: z,
        next: end,
    } = text_truth(s, from)?;
    if !closes(s, end) {
        return None;
    }
    if same_integer(z, 2) {
        return put_null(to, column, end + 5, row, o);
    }
    let e = put_truth(to, z, row, o);
    Some(Moved {
        next: end + 5,
        end: e,
        null: false,
    })
}

// ---- elements none of which stands for null

// Are there some, and as many as the column has? "not n of them in a fixed column; fixed char may be shorter, not longer"
fn count_fits(column: Column, count: usize) -> bool
    ensures { result ≡ true → Counts column count }
{
    if count == 0 {
        return false;
    }
    let kind = column.kind;
    let len = column.len;
    match len {
        Len::Fixed(n) => {
            if is_char(kind) {
                count <= n
            } else {
                count == n
            }
        }
        Len::Bounded(n) => count <= n,
        Len::Free => count <= table::MOST_ELEMENTS,
    }
}

// As text: the tags around what is copied.
fn copy_elements(column: Column, s: &[u8], from: usize, row: &mut [u8], o: usize) -> Option<Moved>
    requires { (from ≤ length s.now) × (bound column.len ≤ most_elements) × (o + most_room ≤ length row.old) }
    ensures { NeverNull column → MovesRead (TextRead column s.now from) TableData TableData column row.old o row.new result }
{
    let kind = column.kind;
    let inner = put_open(row, o);
    let Content {
        count,
        next: end,
        end: last,
    } = copy_content(kind, s, from, row, inner)?;
    if !closes(s, end) {
        return None;
    }
    if !count_fits(column, count) {
        return None;
    }
    if row.len() - last < 8 {
        return None;
    }
    let e = put_close(row, last);
    Some(Moved {
        next: end + 5,
        end: e,
        null: false,
    })
}

// As bytes: room for the count, which is known only behind them.
fn read_elements(column: Column, s: &[u8], from: usize, row: &mut [u8], o: usize) -> Option<Moved>
    requires { (from ≤ length s.now) × (bound column.len ≤ most_elements) × (o + most_room ≤ length row.old) }
    ensures { NeverNull column → MovesRead (TextRead column s.now from) TableData Binary column row.old o row.new result × MovesRead (TextRead column s.now from) TableData Binary2 column row.old o row.new result }
{
    let kind = column.kind;
    let len = column.len;
    let inner = o + count_size(len);
    let Content {
        count,
        next: end,
        end: last,
    } = read_content(kind, s, from, row, inner)?;
    if !closes(s, end) {
        return None;
    }
    if !count_fits(column, count) {
        return None;
    }
    fill_up(column, count, end + 5, row, o, last)
}

fn move_elements(
    to: Rows,
    column: Column,
    s: &[u8],
    from: usize,
    row: &mut [u8],
    o: usize,
) -> Option<Moved>
    requires { (from ≤ length s.now) × (bound column.len ≤ most_elements) × (o + most_room ≤ length row.old) }
    ensures { NeverNull column → MovesRead (TextRead column s.now from) TableData to column row.old o row.new result }
{
    if is_text(to) {
        return copy_elements(column, s, from, row, o);
    }
    read_elements(column, s, from, row, o)
}

// ---- a cell

// A scalar integer or boolean may stand for null, and goes by its value. Each of the three ways is called here alone, so that the compiler makes
// one function of all.
fn move_content(
    to: Rows,
    column: Column,
    s: &[u8],
    from: usize,
    row: &mut [u8],
    o: usize,
) -> Option<Moved>
    requires { (from ≤ length s.now) × (bound column.len ≤ most_elements) × (o + most_room ≤ length row.old) }
    ensures { MovesRead (TextRead column s.now from) TableData to column row.old o row.new result }
{
    match scalar_of(column) {
        Some(Scalar::Integer(integer)) => move_integer(to, column, integer, s, from, row, o),
        Some(Scalar::Truth) => move_truth(to, column, s, from, row, o),
        None => move_elements(to, column, s, from, row, o),
    }
}

// A cell at a place, white space before it or not.
pub fn move_text(
    to: Rows,
    column: Column,
    s: &[u8],
    at: usize,
    row: &mut [u8],
    o: usize,
) -> Option<Moved>
    requires { (at ≤ length s.now) × (bound column.len ≤ most_elements) × (o ≤ length row.old) }
    ensures { (flagged : Bool) → MovesCell TableData to column flagged s.now at row.old o row.new result }
{
    if row.len() - o < cell_putting::ROOM {
        return None;
    }
    match open_cell(s, at)? {
        Opening::Empty(next) => put_null(to, column, next, row, o),
        Opening::Content(from) => move_content(to, column, s, from, row, o),
    }
}
