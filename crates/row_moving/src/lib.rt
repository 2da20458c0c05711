// Rows of one kind to rows of another, each made in a buffer of its own and then copied to the output whole: a row that is refused, or does not fit,
// writes nothing, and no cell is measured before it is written.
#![tactic(auto)]

ghost use Rattle.std.specs.Prelude.{◌≡◌, ◌+◌, ◌<◌, ◌≤◌, length, take};
ghost use Rattle.moving.specs.Rows.{MovesRows, most_frame_bytes};
ghost use Rattle.row_moving.specs.Clauses.{FramesRow};
ghost use Rattle.row_reading.specs.Clauses.{Begins};
ghost use Rattle.rows.specs.Bounds.{Within};
ghost use Rattle.table.specs.Cell.{most_elements};
ghost use Rattle.table.specs.ColumnList.{listed};
ghost use Rattle.table.specs.Wrote.{Wrote};
ghost use Rattle.table.specs.declared.Rows.TheVariants.{Binary2, TableData};

use cell_moving::move_cell;
use flags::add_flag;
use integers::{eight_bytes, four_bytes, put_eight};
use planned_moving::move_planned;
use planning::plan_of;
use row_reading::{Begin, begin_row, end_row, flag_of};
use row_writing::{start_size, write_end, write_start};
use table::{Columns, Reason, Rows};

// Rows that are done: the place in the input where they end, how many they are, and the bytes written.
#[derive(Clone, Copy)]
pub struct Done {
    pub place: usize,
    pub rows: u64,
    pub bytes: usize,
}

// Room for what stands around a row's cells.
const MOST_FRAME_BYTES: usize = 8;

// A row above this is copied by vectors.
const MOST_BY_EIGHTS: usize = 128;

// What begins a row and what ends it, around its cells, which end at a place of the buffer: the bytes of the row, unless the buffer has no room for it.
fn frame_row(to: Rows, count: usize, nulls: u64, row: &mut [u8], end: usize) -> Option<usize>
    requires { (count ≤ 64) × (most_frame_bytes ≤ length row.old) × (end ≤ length row.old) }
    ensures { FramesRow to count nulls row.old end row.new result }
{
    if row.len() - end < MOST_FRAME_BYTES {
        return None;
    }
    write_start(to, count, nulls, row, 0);
    Some(write_end(to, row, end))
}

// ---- the first bytes of the buffer, to the output, and not a byte more

// One at a time.
fn put_few(row: &[u8], size: usize, out: &mut [u8], at: usize) -> usize
    requires { (size ≤ length row.now) × (at + size ≤ length out.old) }
    ensures { Wrote out.old at (take size row.now) out.new result }
{
    for k in 0..size {
        out[at + k] = row[k];
    }
    at + size
}

// Eight at a time; the last eight may be put over some that are there.
fn put_eights(row: &[u8], size: usize, out: &mut [u8], at: usize) -> usize
    requires le_size { 8 ≤ size }
    requires size_in_bounds { (size ≤ length row.now) × (at + size ≤ length out.old) }
    ensures { Wrote out.old at (take size row.now) out.new result }
{
    let last = size - 8;
    let mut k: usize = 0;
    while k < last {
        put_eight(out, at + k, eight_bytes(row, k));
        k += 8;
    }
    put_eight(out, at + last, eight_bytes(row, last))
}

// From 8 bytes to MOST_BY_EIGHTS by eights; others by the loop, of which the compiler makes vectors for the long ones. (`copy_from_slice` would be
// plainer, but a copy of any length by it calls memmove, which an archive for C would need from outside.)
fn put_row(row: &[u8], size: usize, out: &mut [u8], at: usize) -> usize
    requires { (size ≤ length row.now) × (at + size ≤ length out.old) }
    ensures { Wrote out.old at (take size row.now) out.new result }
{
    if 8 <= size && size <= MOST_BY_EIGHTS {
        put_eights(row, size, out, at)
    } else {
        put_few(row, size, out, at)
    }
}

// ---- the start of a row: what is plain is told from eight bytes at once, all else by `begin_row`

// A bare `<TR>`, behind a line's end or not.
fn begin_text(s: &[u8], at: usize, count: usize) -> Result<Begin, Reason>
    requires { (at + 8 ≤ length s.now) × (1 ≤ count) × (count ≤ 64) }
    ensures { Begins TableData count s.now at result }
{
    let start = if s[at] == 10 { at + 1 } else { at };
    if four_bytes(s, start) == 0x3c54523e {
        Ok(Begin {
            flags: 0,
            cells: start + 4,
        })
    } else {
        begin_row(Rows::TableData, s, at, count)
    }
}

// The flags, of which the spare ones are 0.
fn begin_flags(s: &[u8], at: usize, count: usize) -> Result<Begin, Reason>
    requires { (at + 8 ≤ length s.now) × (1 ≤ count) × (count ≤ 64) }
    ensures { Begins Binary2 count s.now at result }
{
    let n = (count + 7) / 8;
    let x = eight_bytes(s, at) >> (64 - 8 * n);
    let unit = 1u64 << (8 * n - count);
    if x % unit == 0 {
        Ok(Begin {
            flags: x / unit,
            cells: at + n,
        })
    } else {
        begin_row(Rows::Binary2, s, at, count)
    }
}

// As `begin_row`, which it calls where the row does not begin plainly.
fn begin_quickly(from: Rows, s: &[u8], at: usize, count: usize) -> Result<Begin, Reason>
    requires { (at ≤ length s.now) × (1 ≤ count) × (count ≤ 64) }
    ensures { Begins from count s.now at result }
{
    if s.len() - at < 8 {
        return begin_row(from, s, at, count);
    }
    match from {
        Rows::TableData => begin_text(s, at, count),
        Rows::Binary => Ok(Begin {
            flags: 0,
            cells: at,
        }),
        Rows::Binary2 => begin_flags(s, at, count),
    }
}

// ---- rows

// Rows, as long as they are good, fit, and are not longer than the buffer.
pub fn move_rows(
    cols: Columns,
    from: Rows,
    to: Rows,
    s: &[u8],
    start: Done,
    out: &mut [u8],
    scratch: &mut [i64],
    row: &mut [u8],
) -> Done
    requires within { Within (listed cols) × (most_elements ≤ length scratch.old) × (most_frame_bytes ≤ length row.old) }
    requires place_in_bounds { (start.place ≤ length s.now) × (start.rows ≤ start.place) × (start.bytes ≤ length out.old) }
    ensures moves_rows { MovesRows from to (listed cols) s.now out.old start.place start.rows start.bytes (length row.old) out.new result.place result.rows result.bytes }
    ensures scratch_len_unchanged { length scratch.new ≡ length scratch.old }
    ensures row_len_unchanged { length row.new ≡ length row.old }
{
    let count = cols.count;
    let first = start_size(to, count);
    let plan = plan_of(cols);
    let mut place = start.place;
    let mut rows = start.rows;
    let mut bytes = start.bytes;
    'rows: loop {
        let Ok(begun) = begin_quickly(from, s, place, count) else {
            break 'rows;
        };
        let mut at = begun.cells;
        let mut end = first;
        let mut nulls: u64 = 0;
        for i in 0..count {
            let flagged = flag_of(from, begun.flags, count, i);
            let step = plan.list[i];
            let planned = move_planned(from, to, step, flagged, s, at, row, end);
            let moved = match planned {
                Some(moved) => moved,
                None => {
                    let Some(moved) = move_cell(
                        from,
                        to,
                        cols.list[i],
                        flagged,
                        s,
                        at,
                        scratch,
                        row,
                        end,
                    ) else {
                        break 'rows;
                    };
                    moved
                }
            };
            at = moved.next;
            end = moved.end;
            nulls = add_flag(nulls, i, moved.null);
        }
        let Ok(next) = end_row(from, s, at) else {
            break 'rows;
        };
        let Some(size) = frame_row(to, count, nulls, row, end) else {
            break 'rows;
        };
        if out.len() - bytes < size {
            break 'rows;
        }
        bytes = put_row(row, size, out, bytes);
        place = next;
        rows += 1;
    }
    Done { place, rows, bytes }
}
