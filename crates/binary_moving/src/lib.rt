// Cells of BINARY and BINARY2, moved where they are plain.
#![tactic(auto)]

ghost use Rattle.std.specs.Prelude.{true, ◌≡◌, ◌+◌, ◌≤◌, length};
ghost use Rattle.binary.specs.Binary.{content_bytes};
ghost use Rattle.binary_moving.specs.Clauses.{MovesCounted, NotText, skipped};
ghost use Rattle.cell_putting.specs.Clauses.{most_room};
ghost use Rattle.moving.specs.Cells.{MovesCell, MovesRead, NeverNull};
ghost use Rattle.moving.specs.Contents.{InBinary};
ghost use Rattle.number.specs.Clauses.{is_signed, size, width_of};
ghost use Rattle.table.specs.Cell.{bound, is_scalar, most_elements};
ghost use Rattle.table.specs.Shape.{Truths, Whole, shape};
ghost use Rattle.table.specs.declared.Rows.{Rows as Kinds};
ghost use Rattle.table.specs.declared.Rows.TheVariants.{Binary, Binary2, TableData};

use binary_reading::{Count, read_count};
use cell_putting::{
    Scalar, count_size, fill_up, is_text, put_close, put_null, put_open, put_truth, scalar_of,
};
use content_passing::{binary_integer, binary_truth, pass_content};
use content_showing::show_content;
use moving::{Content, Moved, One};
use number::Integer;
use table::{Column, Rows, is_declared, same_integer};

// ---- elements

// As BINARY and BINARY2 have them, where there are some.
fn pass_elements(
    column: Column,
    n: usize,
    s: &[u8],
    at: usize,
    row: &mut [u8],
    o: usize,
) -> Option<Moved>
    requires { (n ≤ most_elements) × (at + content_bytes (shape column.kind) n + 8 ≤ length s.now) × (o + most_room ≤ length row.old) }
    ensures moves_read { (from : Kinds) → NeverNull column → MovesRead (InBinary (shape column.kind) n s.now at) from Binary column row.old o row.new result }
    ensures moves_read_2 { (from : Kinds) → NeverNull column → MovesRead (InBinary (shape column.kind) n s.now at) from Binary2 column row.old o row.new result }
{
    let kind = column.kind;
    let len = column.len;
    let bytes = binary::content_bytes(kind, n);
    let inner = o + count_size(len);
    if row.len() - inner < bytes + 8 {
        return None;
    }
    let Content { count, next, end } = pass_content(kind, n, s, at, row, inner)?;
    if count == 0 {
        return None;
    }
    if table::MOST_ELEMENTS < count {
        return None;
    }
    fill_up(column, count, next, row, o, end)
}

// As text, where there are some.
fn show_elements(
    column: Column,
    n: usize,
    s: &[u8],
    at: usize,
    row: &mut [u8],
    o: usize,
) -> Option<Moved>
    requires { (n ≤ most_elements) × (at + content_bytes (shape column.kind) n + 8 ≤ length s.now) × (o + most_room ≤ length row.old) }
    ensures { (from : Kinds) → NeverNull column → MovesRead (InBinary (shape column.kind) n s.now at) from TableData column row.old o row.new result }
{
    let kind = column.kind;
    let inner = put_open(row, o);
    let Content { count, next, end } = show_content(kind, n, s, at, row, inner)?;
    if count == 0 {
        return None;
    }
    if row.len() - end < 8 {
        return None;
    }
    let e = put_close(row, end);
    Some(Moved {
        next,
        end: e,
        null: false,
    })
}

fn move_elements(
    to: Rows,
    column: Column,
    n: usize,
    s: &[u8],
    at: usize,
    row: &mut [u8],
    o: usize,
) -> Option<Moved>
    requires { (n ≤ most_elements) × (at + content_bytes (shape column.kind) n + 8 ≤ length s.now) × (o + most_room ≤ length row.old) }
    ensures { (from : Kinds) → NeverNull column → MovesRead (InBinary (shape column.kind) n s.now at) from to column row.old o row.new result }
{
    if is_text(to) {
        return show_elements(column, n, s, at, row, o);
    }
    pass_elements(column, n, s, at, row, o)
}

// ---- scalars

// An integer that stands for null: any other is moved by its column's step, or is for the careful way.
fn move_integer(
    to: Rows,
    column: Column,
    integer: Integer,
    s: &[u8],
    at: usize,
    row: &mut [u8],
    o: usize,
) -> Option<Moved>
    requires { (bound column.len ≤ most_elements) × (at + size integer ≤ length s.now) × (o + most_room ≤ length row.old) }
    ensures { (from : Kinds) → is_scalar column ≡ true → shape column.kind ≡ Whole (is_signed integer) (width_of integer) → MovesRead (InBinary (shape column.kind) 1 s.now at) from to column row.old o row.new result }
{
    let One { value: z, next } = binary_integer(s, at, integer);
    let null = column.null;
    if is_declared(null, z) {
        return put_null(to, column, next, row, o);
    }
    None
}

fn move_truth(
    to: Rows,
    column: Column,
    s: &[u8],
    at: usize,
    row: &mut [u8],
    o: usize,
) -> Option<Moved>
    requires { (bound column.len ≤ most_elements) × (at + 1 ≤ length s.now) × (o + most_room ≤ length row.old) }
    ensures { (from : Kinds) → is_scalar column ≡ true → shape column.kind ≡ Truths → MovesRead (InBinary (shape column.kind) 1 s.now at) from to column row.old o row.new result }
{
    let One { value: z, next } = binary_truth(s, at)?;
    if same_integer(z, 2) {
        return put_null(to, column, next, row, o);
    }
    let e = put_truth(to, z, row, o);
    Some(Moved {
        next,
        end: e,
        null: false,
    })
}

// ---- a cell

// A cell that is not flagged, after its count. What is called here is called nowhere else, so that the compiler makes one function of all.
fn move_unflagged(
    to: Rows,
    column: Column,
    n: usize,
    s: &[u8],
    at: usize,
    row: &mut [u8],
    o: usize,
) -> Option<Moved>
    requires { (bound column.len ≤ most_elements) × (n ≤ most_elements) × (at + content_bytes (shape column.kind) n + 8 ≤ length s.now) × (o + most_room ≤ length row.old) }
    ensures { (from : Kinds) → MovesRead (InBinary (shape column.kind) n s.now at) from to column row.old o row.new result }
{
    match scalar_of(column) {
        Some(Scalar::Integer(integer)) => {
            if n != 1 {
                return None;
            }
            move_integer(to, column, integer, s, at, row, o)
        }
        Some(Scalar::Truth) => {
            if n != 1 {
                return None;
            }
            move_truth(to, column, s, at, row, o)
        }
        None => move_elements(to, column, n, s, at, row, o),
    }
}

// "its content is skipped unread" where it is flagged; in BINARY no elements are null.
fn is_skipped(from: Rows, flagged: bool, n: usize) -> bool
    ensures { result ≡ skipped from flagged n }
{
    match from {
        Rows::TableData => false,
        Rows::Binary => n == 0,
        Rows::Binary2 => flagged,
    }
}

fn move_counted(
    from: Rows,
    to: Rows,
    column: Column,
    flagged: bool,
    n: usize,
    s: &[u8],
    at: usize,
    row: &mut [u8],
    o: usize,
) -> Option<Moved>
    requires { (bound column.len ≤ most_elements) × (n ≤ most_elements) × (at ≤ length s.now) × (o + most_room ≤ length row.old) }
    ensures { NotText from → MovesCounted from to column flagged n s.now at row.old o row.new result }
{
    let kind = column.kind;
    let bytes = binary::content_bytes(kind, n);
    if s.len() - at < bytes + 8 {
        return None;
    }
    if is_skipped(from, flagged, n) {
        return put_null(to, column, at + bytes, row, o);
    }
    move_unflagged(to, column, n, s, at, row, o)
}

pub fn move_binary(
    from: Rows,
    to: Rows,
    column: Column,
    flagged: bool,
    s: &[u8],
    at: usize,
    row: &mut [u8],
    o: usize,
) -> Option<Moved>
    requires { (at ≤ length s.now) × (bound column.len ≤ most_elements) × (o ≤ length row.old) }
    ensures { NotText from → MovesCell from to column flagged s.now at row.old o row.new result }
{
    if row.len() - o < cell_putting::ROOM {
        return None;
    }
    let len = column.len;
    let Ok(Count { elements: n, next }) = read_count(s, at, len) else {
        return None;
    };
    move_counted(from, to, column, flagged, n, s, next, row, o)
}
