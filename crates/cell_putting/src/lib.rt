// A cell put into a row's buffer: null, one element by its value, or elements whose bytes stand there already.
#![tactic(auto)]

ghost use Rattle.std.specs.Prelude.{◌≡◌, ℕ, ◌+◌, ◌≤◌, length};
ghost use Rattle.binary.specs.Binary.{count_bytes};
ghost use Rattle.cell_putting.specs.Clauses.{FillsUp, ScalarIs, fill_size, is_text, most_room, one_form};
ghost use Rattle.moving.specs.Cells.{PutsCell};
ghost use Rattle.moving.specs.Puts.{Puts};
ghost use Rattle.number.specs.Clauses.{is_signed, width_of};
ghost use Rattle.table.specs.Bytes.{bytes};
ghost use Rattle.table.specs.Cell.{bound, most_elements, null};
ghost use Rattle.table.specs.Shape.{Truths, Whole};
ghost use Rattle.table.specs.declared.Rows.TheVariants.{Binary, Binary2};

use binary_writing::{null_size, put_binary_null, put_count, put_zeros, room_in, room_size};
use content_passing::{pass_integer, pass_truth};
use content_showing::{show_integer, show_truth};
use integers::{put_eight, put_four};
use moving::Moved;
use number::{Elements, Integer, elements_of};
use table::{Column, Len, Rows, is_char, is_scalar};

// What a leaf may store in one go: where the buffer has less room, the cell is for the careful way.
pub const ROOM: usize = 64;

// ---- tags

// `<TD>`
pub fn put_open(row: &mut [u8], o: usize) -> usize
    requires { o + 4 ≤ length row.old }
    ensures { Puts row.old o (bytes "<TD>") row.new result }
{
    put_four(row, o, 0x3c54443e)
}

// `</TD>`
pub fn put_close(row: &mut [u8], o: usize) -> usize
    requires { o + 8 ≤ length row.old }
    ensures { Puts row.old o (bytes "</TD>") row.new result }
{
    put_eight(row, o, 0x3c2f54443e000000);
    o + 5
}

// `<TD/>`
fn put_empty(row: &mut [u8], o: usize) -> usize
    requires { o + 8 ≤ length row.old }
    ensures { Puts row.old o (bytes "<TD/>") row.new result }
{
    put_eight(row, o, 0x3c54442f3e000000);
    o + 5
}

// ---- null

// "Null in BINARY2: flag, zero bytes, count 0."
fn put_flagged(column: Column, next: usize, row: &mut [u8], o: usize) -> Option<Moved>
    requires { (bound column.len ≤ most_elements) × (o ≤ length row.old) }
    ensures { PutsCell Binary2 column null next row.old o row.new result }
{
    if row.len() - o < room_size(column, 0) {
        return None;
    }
    let end = binary_writing::put_null(column, row, o);
    Some(Moved {
        next,
        end,
        null: true,
    })
}

// "Null in BINARY: the declared null, `?` for a scalar boolean, count 0 for bounded and free, NULs for fixed char; else 15."
#[inline(always)]
fn put_declared(column: Column, next: usize, row: &mut [u8], o: usize) -> Option<Moved>
    requires { (bound column.len ≤ most_elements) × (o ≤ length row.old) }
    ensures { PutsCell Binary column null next row.old o row.new result }
{
    let Ok(size) = null_size(column) else {
        return None;
    };
    if row.len() - o < size {
        return None;
    }
    let end = put_binary_null(column, row, o);
    Some(Moved {
        next,
        end,
        null: true,
    })
}

// A null that ends at a place of the input. Never a call: what it hands back would go through memory.
#[inline(always)]
pub fn put_null(to: Rows, column: Column, next: usize, row: &mut [u8], o: usize) -> Option<Moved>
    requires { (bound column.len ≤ most_elements) × (o + most_room ≤ length row.old) }
    ensures { PutsCell to column null next row.old o row.new result }
{
    match to {
        Rows::TableData => {
            let end = put_empty(row, o);
            Some(Moved {
                next,
                end,
                null: true,
            })
        }
        Rows::Binary => put_declared(column, next, row, o),
        Rows::Binary2 => put_flagged(column, next, row, o),
    }
}

// ---- one element of a scalar that stands for no null

// Rows that have tags.
#[tactic(auto, unfolding(crate::specs::Clauses::is_text))]
pub fn is_text(rows: Rows) -> bool
    ensures { result ≡ is_text rows }
{
    matches!(rows, Rows::TableData)
}

// A number alone is handed back, since an answer with a place more would go by memory.
pub fn put_integer(to: Rows, integer: Integer, z: i64, row: &mut [u8], o: usize) -> usize
    requires { o + most_room ≤ length row.old }
    ensures { Puts row.old o (one_form to (Whole (is_signed integer) (width_of integer)) z) row.new result }
{
    if is_text(to) {
        let inner = put_open(row, o);
        let last = show_integer(z, row, inner);
        return put_close(row, last);
    }
    pass_integer(integer, z, row, o)
}

pub fn put_truth(to: Rows, z: i64, row: &mut [u8], o: usize) -> usize
    requires { o + most_room ≤ length row.old }
    ensures { Puts row.old o (one_form to Truths z) row.new result }
{
    if is_text(to) {
        let inner = put_open(row, o);
        let last = show_truth(z, row, inner);
        return put_close(row, last);
    }
    pass_truth(z, row, o)
}

// ---- which columns may have an element that stands for null

// One integer, or one boolean.
#[derive(Clone, Copy)]
pub enum Scalar {
    Integer(Integer),
    Truth,
}

// None for a column that has none.
pub fn scalar_of(column: Column) -> Option<Scalar>
    ensures { ScalarIs column result }
{
    if !is_scalar(column) {
        return None;
    }
    let kind = column.kind;
    match elements_of(kind) {
        Elements::Whole(integer) => Some(Scalar::Integer(integer)),
        Elements::Truths => Some(Scalar::Truth),
        Elements::Bits | Elements::Text => None,
    }
}

// ---- what stands around elements, in BINARY and BINARY2

// The bytes before the elements: those of a count, where there is one.
pub fn count_size(len: Len) -> usize
    ensures { (result ≤ 4) × ((count : ℕ) → length (count_bytes len count) ≡ result) }
{
    match len {
        Len::Fixed(_) => 0,
        Len::Bounded(_) => 4,
        Len::Free => 4,
    }
}

// "fixed char filled up with NUL": how many stand behind so many elements.
fn fill_size(column: Column, count: usize) -> usize
    ensures { result ≡ fill_size column count }
{
    let kind = column.kind;
    let len = column.len;
    if !is_char(kind) {
        return 0;
    }
    let room = room_in(len, count);
    if room < count {
        return 0;
    }
    room - count
}

// Elements whose bytes stand in the buffer up to a place, behind room for their count: the count, and NULs behind them.
pub fn fill_up(
    column: Column,
    count: usize,
    next: usize,
    row: &mut [u8],
    o: usize,
    end: usize,
) -> Option<Moved>
    requires { (count ≤ most_elements) × (o + 4 ≤ length row.old) × (end ≤ length row.old) }
    ensures { FillsUp column count next row.old o end row.new result }
{
    let len = column.len;
    let fill = fill_size(column, count);
    if row.len() - end < fill {
        return None;
    }
    put_count(len, count, row, o);
    let e = put_zeros(fill, row, end);
    Some(Moved {
        next,
        end: e,
        null: false,
    })
}
