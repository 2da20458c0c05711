// Cells of BINARY and BINARY2 moved by their column's step: one decision for each cell. What a step says nothing of goes by its column.
#![tactic(auto)]

ghost use Rattle.std.specs.Prelude.{false, true, ◌≡◌, ◌+◌, ◌≤◌, length};
ghost use Rattle.cell_putting.specs.Clauses.{is_text, most_room};
ghost use Rattle.moving.specs.Cells.{MovesCell, MovesRead};
ghost use Rattle.moving.specs.Contents.{InBinary};
ghost use Rattle.number.specs.Clauses.{is_signed, size, width_of};
ghost use Rattle.planned_moving.specs.Clauses.{PassesBytes};
ghost use Rattle.planning.specs.Plan.{most_bytes, step_of};
ghost use Rattle.rows.specs.Bounds.{Bounded};
ghost use Rattle.table.specs.Cell.{is_scalar};
ghost use Rattle.table.specs.Shape.{Whole, shape};
ghost use Rattle.table.specs.declared.Column.{Column as Declared};
ghost use Rattle.table.specs.declared.Rows.{Rows as Kinds};

use cell_putting::{is_text, put_integer};
use content_passing::{binary_integer, copy};
use moving::{Moved, One};
use number::Integer;
use planning::{Step, Want};
use table::{Rows, is_declared};

// One integer, by its value; not where that stands for null.
fn move_integer(
    to: Rows,
    integer: Integer,
    null: Option<i64>,
    s: &[u8],
    at: usize,
    row: &mut [u8],
    o: usize,
) -> Option<Moved>
    requires { (at + size integer ≤ length s.now) × (o + most_room ≤ length row.old) }
    ensures { (from : Kinds) (c : Declared) → is_scalar c ≡ true → shape c.kind ≡ Whole (is_signed integer) (width_of integer) → c.null ≡ null → MovesRead (InBinary (shape c.kind) 1 s.now at) from to c row.old o row.new result }
{
    let One { value: z, next } = binary_integer(s, at, integer);
    if is_declared(null, z) {
        return None;
    }
    let e = put_integer(to, integer, z, row, o);
    Some(Moved {
        next,
        end: e,
        null: false,
    })
}

// Bytes as they stand; not to text.
fn move_bytes(
    to: Rows,
    bytes: usize,
    s: &[u8],
    at: usize,
    row: &mut [u8],
    o: usize,
) -> Option<Moved>
    requires { (at + bytes + 8 ≤ length s.now) × (o + bytes + 8 ≤ length row.old) }
    ensures { PassesBytes to bytes s.now at row.old o row.new result }
{
    if is_text(to) {
        return None;
    }
    let e = copy(s, at, bytes, row, o);
    Some(Moved {
        next: at + bytes,
        end: e,
        null: false,
    })
}

// A cell of BINARY or BINARY2 that is not flagged, has its bytes and some more behind them, and room in the buffer.
fn move_wanted(to: Rows, step: Step, s: &[u8], at: usize, row: &mut [u8], o: usize) -> Option<Moved>
    requires { (at + step.bytes + 8 ≤ length s.now) × (o + step.bytes + most_room ≤ length row.old) }
    ensures { (from : Kinds) (c : Declared) → is_text from ≡ false → Bounded c → step ≡ step_of c → MovesCell from to c false s.now at row.old o row.new result }
{
    match step.want? {
        Want::Bytes => move_bytes(to, step.bytes, s, at, row, o),
        Want::Integer(integer) => move_integer(to, integer, step.null, s, at, row, o),
    }
}

// A cell by its column's step, where it has one.
pub fn move_planned(
    from: Rows,
    to: Rows,
    step: Step,
    flagged: bool,
    s: &[u8],
    at: usize,
    row: &mut [u8],
    o: usize,
) -> Option<Moved>
    requires { (at ≤ length s.now) × (o ≤ length row.old) × (step.bytes ≤ most_bytes) }
    ensures { (c : Declared) → Bounded c → step ≡ step_of c → MovesCell from to c flagged s.now at row.old o row.new result }
{
    let bytes = step.bytes;
    if is_text(from) | flagged {
        return None;
    }
    if (s.len() - at < bytes + 8) | (row.len() - o < bytes + cell_putting::ROOM) {
        return None;
    }
    move_wanted(to, step, s, at, row, o)
}
