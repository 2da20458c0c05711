// Rows of one kind to rows of another: a loop over rows with a loop over columns inside.
#![tactic(auto)]

ghost use Rattle.std.specs.Prelude.{None, Some, ◌≡◌, ◌*◌, ◌+◌, ◌<◌, ◌^◌, ◌≤◌, drop, length};
ghost use Rattle.table.specs.Cell.{bound, most_elements};
ghost use Rattle.table.specs.Clauses.{ShownUpTo};
ghost use Rattle.table.specs.Outcome.{answer_of, buffer_of};
ghost use Rattle.table.specs.ColumnList.{listed};
ghost use Rattle.moving.specs.Rows.{MovesRows, most_frame_bytes};
ghost use Rattle.row_writing.specs.Clauses.{SizeWithin, most_cell_bytes};
ghost use Rattle.rows.specs.Bounds.{Within};
ghost use Rattle.rows.specs.Convert.{Converts};
ghost use Rattle.rows.specs.Pieces.{ConvertsPiece, place_of};
ghost use Rattle.rows.specs.Stream.{read_cell, run};
ghost use Rattle.convert.specs.Clauses.{GrownBy, MeasuredBy, held_count, held_with, place_for, scratch_length};

use declaring::front;
use flags::add_flag;
use row_moving::{Done, move_rows};
use row_reading::{at_end, begin_row, end_row, flag_of, read_cell};
use row_writing::{frame_size, put_row, size_cell};
use table::{Answer, Column, Columns, Reason, Refused, Rows};

// A place in the input, where the next row begins.
#[derive(Clone, Copy)]
struct Cursor {
    at: usize,
}

impl Cursor {
    fn start() -> Self
        ensures { result.at ≡ 0 }
    {
        Cursor { at: 0 }
    }

    // The state after a row that took `size` bytes of the input.
    fn after(self, size: usize) -> Cursor
        requires { self.at + size < 2 ^ 64 }
        ensures { result.at ≡ self.at + size }
    {
        Cursor { at: self.at + size }
    }
}

// The rows done and the bytes written.
#[derive(Clone, Copy)]
struct Progress {
    rows: u64,
    bytes: usize,
}

impl Progress {
    fn start() -> Self
        ensures { (result.rows ≡ 0) × (result.bytes ≡ 0) }
    {
        Progress { rows: 0, bytes: 0 }
    }

    // The state after a row that took `size` bytes of the output.
    fn after(self, size: usize) -> Progress
        requires { (self.bytes + size < 2 ^ 64) × (self.rows + 1 < 2 ^ 64) }
        ensures { (result.rows ≡ self.rows + 1) × (result.bytes ≡ self.bytes + size) }
    {
        Progress {
            rows: self.rows + 1,
            bytes: self.bytes + size,
        }
    }
}

// A row while it is measured: its null cells as a word of flags, the length of its cells as they will be written, the first refusal in writing, and
// how much of the scratch holds the cells so far, unless they are too many to be held.
#[derive(Clone, Copy)]
struct Measured {
    nulls: u64,
    size: usize,
    refused: Option<Refused>,
    held: Option<usize>,
}

// A cell more: where it ends, and the row with it.
#[derive(Clone, Copy)]
struct Turn {
    next: usize,
    measured: Measured,
}

// What stops the loop over rows: a refusal's number, row and column, as the answer has them, all 0 where no row is left; and the place in the input
// where the rows done end. Not a Result: the loop is left by label in five ways, and each copies its own numbers into the answer (01, `convert_rows`).
#[derive(Clone, Copy)]
struct Stop {
    number: u64,
    row: u64,
    column: usize,
    place: usize,
}

// An answer, and the place in the input where the rows done end.
#[derive(Clone, Copy)]
pub struct Piece {
    pub answer: Answer,
    pub place: usize,
}

// What the scratch has: it holds cells while a cell of any size has room behind them.
const SCRATCH: usize = 8192;

// What the buffer of a row has: a longer row goes the careful way.
const ROW: usize = 16384;

// And where few rows are converted.
const SHORT_ROW: usize = 512;

// What stands in the scratch for a cell that is null, in the place of its count.
const NULL: i64 = -1;

// ---- a cell of a row

// Where the next cell is held: behind those that are, while a cell of any size has room there.
fn place_for(held: Option<usize>) -> usize
    ensures { (result ≡ place_for held) × (result < most_elements) }
{
    match held {
        None => 0,
        Some(n) => { if n < table::MOST_ELEMENTS { n } else { 0 } }
    }
}

// How much is held with a cell of n elements more.
fn held_with(held: Option<usize>, n: usize) -> Option<usize>
    requires { n ≤ most_elements }
    ensures { result ≡ held_with held n }
{
    let before = held?;
    if before < table::MOST_ELEMENTS {
        Some(before + 1 + n)
    } else {
        None
    }
}

// What the scratch has before a cell's elements.
fn held_count(shown: Option<usize>) -> i64
    requires { ShownUpTo most_elements shown }
    ensures { result ≡ held_count shown }
{
    match shown {
        None => NULL,
        Some(n) => n as i64,
    }
}

impl Measured {
    fn start() -> Self
        ensures { result ≡ record { nulls = 0; size = 0; refused = None; held = Some 0 } }
    {
        Measured {
            nulls: 0,
            size: 0,
            refused: None,
            held: Some(0),
        }
    }

    // One more cell: column i's, null or of so many elements, which takes so much; the first refusal stays.
    fn after(self, i: usize, shown: Option<usize>, size: Result<usize, Reason>) -> Measured
        requires { (self.size ≤ most_cell_bytes * i) × (i < 64) × SizeWithin size × ShownUpTo most_elements shown }
        ensures { GrownBy i shown size self result }
    {
        let nulls = add_flag(self.nulls, i, shown.is_none());
        let held = held_with(self.held, shown.unwrap_or(0));
        match size {
            Ok(bytes) => Measured {
                nulls,
                size: self.size + bytes,
                refused: self.refused,
                held,
            },
            Err(reason) => Measured {
                nulls,
                size: self.size,
                refused: self.refused.or(Some(Refused { reason, column: i })),
                held,
            },
        }
    }
}

// Reads column i's cell into the scratch, holds it there, and says what it will take.
fn measure(
    at: usize,
    m: Measured,
    i: usize,
    from: Rows,
    to: Rows,
    column: Column,
    flagged: bool,
    s: &[u8],
    scratch: &mut [i64],
) -> Result<Turn, Reason>
    requires { (at ≤ length s.now) × (i < 64) × (m.size ≤ most_cell_bytes * i) × (bound column.len ≤ most_elements) × (scratch_length ≤ length scratch.old) }
    ensures measured_by { MeasuredBy to column i (read_cell from column flagged (drop at s.now)) s.now at m scratch.old scratch.new result }
    ensures scratch_len_unchanged { length scratch.new ≡ length scratch.old }
{
    let place = place_for(m.held);
    let first = place + 1;
    let found = read_cell(from, s, at, column, flagged, &mut scratch[first..])?;
    scratch[place] = held_count(found.shown);
    let size = size_cell(to, column, found.shown, &scratch[first..]);
    Ok(Turn {
        next: found.next,
        measured: m.after(i, found.shown, size),
    })
}

// ---- the converter

// Rows from here on that can be made in the buffer, moved: the state after them.
fn moved(
    cols: Columns,
    from: Rows,
    to: Rows,
    s: &[u8],
    cursor: Cursor,
    p: Progress,
    out: &mut [u8],
    scratch: &mut [i64],
    row: &mut [u8],
) -> Done
    requires within { Within (listed cols) × (most_elements ≤ length scratch.old) × (most_frame_bytes ≤ length row.old) }
    requires at_in_bounds { (cursor.at ≤ length s.now) × (p.rows ≤ cursor.at) × (p.bytes ≤ length out.old) }
    ensures moves_rows { MovesRows from to (listed cols) s.now out.old cursor.at p.rows p.bytes (length row.old) out.new result.place result.rows result.bytes }
    ensures scratch_len_unchanged { length scratch.new ≡ length scratch.old }
    ensures row_len_unchanged { length row.new ≡ length row.old }
{
    let start = Done {
        place: cursor.at,
        rows: p.rows,
        bytes: p.bytes,
    };
    move_rows(cols, from, to, s, start, out, scratch, row)
}

// The rows of the input: a loop over rows with a loop over columns inside, left by label at the first refusal with its row and column. Rows that
// can be made in the buffer are moved before each turn: what is left for a turn is a row that is refused, or longer than the buffer.
fn convert_rows(
    cols: Columns,
    from: Rows,
    to: Rows,
    s: &[u8],
    out: &mut [u8],
    scratch: &mut [i64],
    row: &mut [u8],
) -> Piece
    requires { Within (listed cols) × (scratch_length ≤ length scratch.old) × (most_frame_bytes ≤ length row.old) }
    ensures answer_value { result.answer ≡ answer_of (run from to (listed cols) (length out.old) s.now) }
    ensures place_value { result.place ≡ place_of from (listed cols) s.now (run from to (listed cols) (length out.old) s.now) }
    ensures out_after { out.new ≡ buffer_of (run from to (listed cols) (length out.old) s.now) out.old }
{
    let count = cols.count;
    let around = frame_size(to, count);
    let first = moved(
        cols,
        from,
        to,
        s,
        Cursor::start(),
        Progress::start(),
        out,
        scratch,
        row,
    );
    let mut cursor = Cursor { at: first.place };
    let mut p = Progress {
        rows: first.rows,
        bytes: first.bytes,
    };
    let mut stop = Stop {
        number: 0,
        row: 0,
        column: 0,
        place: s.len(),
    };
    'rows: while !at_end(from, s, cursor.at) {
        let start = cursor.at;
        let begin = match begin_row(from, s, start, count) {
            Ok(begin) => begin,
            Err(reason) => {
                stop = Stop {
                    number: reason.number(),
                    row: p.rows,
                    column: 0,
                    place: start,
                };
                break 'rows;
            }
        };
        let mut at = begin.cells;
        let mut m = Measured::start();
        for i in 0..count {
            let c = cols.list[i];
            let flagged = flag_of(from, begin.flags, count, i);
            match measure(at, m, i, from, to, c, flagged, s, scratch) {
                Ok(turn) => {
                    at = turn.next;
                    m = turn.measured;
                }
                Err(reason) => {
                    stop = Stop {
                        number: reason.number(),
                        row: p.rows,
                        column: i,
                        place: start,
                    };
                    break 'rows;
                }
            }
        }
        let next = match end_row(from, s, at) {
            Ok(next) => next,
            Err(reason) => {
                stop = Stop {
                    number: reason.number(),
                    row: p.rows,
                    column: count,
                    place: start,
                };
                break 'rows;
            }
        };
        if let Some(refused) = m.refused {
            stop = Stop {
                number: refused.reason.number(),
                row: p.rows,
                column: refused.column,
                place: start,
            };
            break 'rows;
        }
        let size = around + m.size;
        let room = out.len() - p.bytes;
        if room < size {
            stop = Stop {
                number: Reason::NoRoom.number(),
                row: p.rows,
                column: 0,
                place: start,
            };
            break 'rows;
        }
        put_row(
            cols,
            from,
            to,
            s,
            begin.flags,
            begin.cells,
            m.nulls,
            m.held,
            out,
            p.bytes,
            scratch,
        );
        let more = moved(
            cols,
            from,
            to,
            s,
            cursor.after(next - start),
            p.after(size),
            out,
            scratch,
            row,
        );
        cursor = Cursor { at: more.place };
        p = Progress {
            rows: more.rows,
            bytes: more.bytes,
        };
    }
    Piece {
        answer: Answer {
            number: stop.number,
            row: stop.row,
            column: stop.column as u64,
            rows: p.rows,
            bytes: p.bytes as u64,
        },
        place: stop.place,
    }
}

// Rows under a column list, and the place where those done end.
pub fn convert_piece_columns(cols: Columns, from: Rows, to: Rows, s: &[u8], out: &mut [u8]) -> Piece
    requires { Within (listed cols) }
    ensures answer_value { result.answer ≡ answer_of (run from to (listed cols) (length out.old) s.now) }
    ensures place_value { result.place ≡ place_of from (listed cols) s.now (run from to (listed cols) (length out.old) s.now) }
    ensures out_after { out.new ≡ buffer_of (run from to (listed cols) (length out.old) s.now) out.old }
{
    let mut scratch = [0i64; SCRATCH];
    let mut row = [0u8; ROW];
    convert_rows(cols, from, to, s, out, &mut scratch, &mut row)
}

// Rows under a column list, for a caller who has few of them and a stack that is half used: the buffer of a row is short.
pub fn convert_columns(cols: Columns, from: Rows, to: Rows, s: &[u8], out: &mut [u8]) -> Answer
    requires { Within (listed cols) }
    ensures value { result ≡ answer_of (run from to (listed cols) (length out.old) s.now) }
    ensures out_after { out.new ≡ buffer_of (run from to (listed cols) (length out.old) s.now) out.old }
{
    let mut scratch = [0i64; SCRATCH];
    let mut row = [0u8; SHORT_ROW];
    let piece = convert_rows(cols, from, to, s, out, &mut scratch, &mut row);
    piece.answer
}

// Rows of one kind to rows of another: the front of the call, then the rows. A refusal of the front stands before any row.
pub fn convert_piece(decls: &[u8], from: Rows, to: Rows, input: &[u8], out: &mut [u8]) -> Piece
    ensures { ConvertsPiece decls.now from to input.now out.old result.answer result.place out.new }
{
    match front(decls, input.len()) {
        Ok(cols) => convert_piece_columns(cols, from, to, input, out),
        Err(refused) => Piece {
            answer: refused.before_rows(),
            place: 0,
        },
    }
}

// The same, for a caller who wants no place.
pub fn convert(decls: &[u8], from: Rows, to: Rows, input: &[u8], out: &mut [u8]) -> Answer
    ensures { Converts decls.now from to input.now out.old result out.new }
{
    let piece = convert_piece(decls, from, to, input, out);
    piece.answer
}
