// A cell of any kind of rows, moved from the input into a row's buffer: read, and written as the other kind has it.
#![tactic(auto)]

ghost use Rattle.std.specs.Prelude.{◌≡◌, ◌≤◌, length};
ghost use Rattle.moving.specs.Cells.{MovesCell, SettlesCell, SettlesPut};
ghost use Rattle.table.specs.Cell.{bound, most_elements};
ghost use Rattle.table.specs.Clauses.{ShownUpTo, ShownWithin, shown_as};

use binary_moving::move_binary;
use cell_putting::is_text;
use moving::Moved;
use row_reading::read_cell;
use row_writing::{size_cell, write_cell};
use table::{Column, Found, Rows};
use text_moving::move_text;

// ---- the careful way

// A cell that was read, put into the buffer; not where it has no form, or no room there.
fn put_cell(
    to: Rows,
    column: Column,
    found: Found,
    scratch: &[i64],
    row: &mut [u8],
    o: usize,
) -> Option<Moved>
    requires { (bound column.len ≤ most_elements) × ShownUpTo (bound column.len) found.shown × ShownWithin scratch.now found.shown × (o ≤ length row.old) }
    ensures { SettlesPut to column (shown_as scratch.now found.shown) found.next row.old o row.new result }
{
    let Ok(size) = size_cell(to, column, found.shown, scratch) else {
        return None;
    };
    if row.len() - o < size {
        return None;
    }
    let end = write_cell(to, column, found.shown, scratch, row, o);
    Some(Moved {
        next: found.next,
        end,
        null: found.shown.is_none(),
    })
}

// By the scratch: read as every cell can be, and written as every cell can be.
fn careful_cell(
    from: Rows,
    to: Rows,
    column: Column,
    flagged: bool,
    s: &[u8],
    at: usize,
    scratch: &mut [i64],
    row: &mut [u8],
    o: usize,
) -> Option<Moved>
    requires { (at ≤ length s.now) × (bound column.len ≤ most_elements) × (most_elements ≤ length scratch.old) × (o ≤ length row.old) }
    ensures settles_cell { SettlesCell from to column flagged s.now at row.old o row.new result }
    ensures scratch_len_unchanged { length scratch.new ≡ length scratch.old }
{
    let Ok(found) = read_cell(from, s, at, column, flagged, scratch) else {
        return None;
    };
    put_cell(to, column, found, scratch, row, o)
}

// ---- the quick way

// A cell that is plain.
fn quick_cell(
    from: Rows,
    to: Rows,
    column: Column,
    flagged: bool,
    s: &[u8],
    at: usize,
    row: &mut [u8],
    o: usize,
) -> Option<Moved>
    requires { (at ≤ length s.now) × (bound column.len ≤ most_elements) × (o ≤ length row.old) }
    ensures { MovesCell from to column flagged s.now at row.old o row.new result }
{
    if is_text(from) {
        return move_text(to, column, s, at, row, o);
    }
    move_binary(from, to, column, flagged, s, at, row, o)
}

// A cell, quickly where it is plain, else the careful way; left only where it is refused, has no form, or the buffer has no room for it.
pub fn move_cell(
    from: Rows,
    to: Rows,
    column: Column,
    flagged: bool,
    s: &[u8],
    at: usize,
    scratch: &mut [i64],
    row: &mut [u8],
    o: usize,
) -> Option<Moved>
    requires { (at ≤ length s.now) × (bound column.len ≤ most_elements) × (most_elements ≤ length scratch.old) × (o ≤ length row.old) }
    ensures settles_cell { SettlesCell from to column flagged s.now at row.old o row.new result }
    ensures scratch_len_unchanged { length scratch.new ≡ length scratch.old }
{
    let quick = quick_cell(from, to, column, flagged, s, at, row, o);
    match quick {
        Some(_) => quick,
        None => careful_cell(from, to, column, flagged, s, at, scratch, row, o),
    }
}
