// Two inputs compared: both in step as far as both have rows, then what each has beyond; and in a lent buffer the places that differ.
#![tactic(auto)]

ghost use Rattle.std.specs.Prelude.{cond, ◌≡◌, ◌-◌, ◌<◌, ◌^◌, ◌≤◌, suc, eqb, drop, length};
ghost use Rattle.table.specs.Cell.{most_elements};
ghost use Rattle.table.specs.ColumnList.{listed};
ghost use Rattle.table.specs.Outcome.{at};
ghost use Rattle.table.specs.Reasons.{refusal_of};
ghost use Rattle.rows.specs.Bounds.{Within};
ghost use Rattle.rows.specs.Stream.{read, read_row};
ghost use Rattle.row_comparing.specs.Clauses.{PairsRow};
ghost use Rattle.compare.specs.Compare.{Compares, before_rows, compared_as, filled, placed, refused_in, rows_shown};
ghost use Rattle.comparing.specs.Clauses.{Counts, StandIn, Steps, behind_first, in_step, rows_both, steps_on};

use compare::Comparison;
use declaring::front;
use noting::note_row;
use row_comparing::{Cursor, RowPair, compare_row};
use row_reading::{at_end, pass_rows};
use table::{Columns, Refused, Rows};

// ---- both inputs in step

// Both inputs behind as many rows, and the place after them in each.
#[derive(Clone, Copy)]
struct Abreast {
    rows: u64,
    first: usize,
    second: usize,
}

// How many cells differ from a start on, where both stand then, and where both stood before the first row that differs.
#[derive(Clone, Copy)]
struct Stepped {
    differing: usize,
    end: Abreast,
    same: Abreast,
}

// More places than there can be.
const ALL: usize = 18446744073709551615;

// Is a row left of both, and are fewer places known than are asked for?
fn steps_on(
    differing: usize,
    most: usize,
    here: Abreast,
    from: Rows,
    first: &[u8],
    kind: Rows,
    second: &[u8],
) -> bool
    requires { (here.first ≤ length first.now) × (here.second ≤ length second.now) }
    ensures { result ≡ steps_on differing most from first.now kind second.now here }
{
    if most <= differing {
        return false;
    }
    if at_end(from, first, here.first) {
        return false;
    }
    !at_end(kind, second, here.second)
}

// The row of each where both stand.
fn compare_here(
    cols: Columns,
    here: Abreast,
    from: Rows,
    first: &[u8],
    kind: Rows,
    second: &[u8],
    a: &mut [i64],
    b: &mut [i64],
) -> Option<RowPair>
    requires { Within (listed cols) × (here.first ≤ length first.now) × (here.second ≤ length second.now) × (most_elements ≤ length a.old) × (most_elements ≤ length b.old) }
    ensures pairs_row { PairsRow (read_row from (listed cols) (drop here.first first.now)) first.now (suc here.first) (read_row kind (listed cols) (drop here.second second.now)) second.now (suc here.second) cols.count result }
    ensures a_len_unchanged { length a.new ≡ length a.old }
    ensures b_len_unchanged { length b.new ≡ length b.old }
{
    let one = Cursor {
        from,
        at: here.first,
    };
    let two = Cursor {
        from: kind,
        at: here.second,
    };
    compare_row(cols, one, first, two, second, a, b)
}

// Where both stand, as long as no cell differs.
fn last_same(differing: usize, here: Abreast, same: Abreast) -> Abreast
    ensures { result ≡ cond (eqb differing 0) here same }
{
    if differing != 0 {
        return same;
    }
    here
}

// From a start on, as far as both have rows that read and fewer places are known than are asked for.
fn step_rows(
    cols: Columns,
    from: Rows,
    first: &[u8],
    kind: Rows,
    second: &[u8],
    start: Abreast,
    most: usize,
    places: &mut [u32],
    a: &mut [i64],
    b: &mut [i64],
) -> Stepped
    requires { Within (listed cols) × (length first.now < 2 ^ 32) × StandIn first.now second.now start × (most_elements ≤ length a.old) × (most_elements ≤ length b.old) }
    ensures steps { Steps from (listed cols) first.now kind second.now start most places.old places.new result }
    ensures a_len_unchanged { length a.new ≡ length a.old }
    ensures b_len_unchanged { length b.new ≡ length b.old }
{
    let count = cols.count;
    let mut differing: usize = 0;
    let mut here = start;
    let mut same = start;
    while steps_on(differing, most, here, from, first, kind, second) {
        let Some(pair) = compare_here(cols, here, from, first, kind, second, a, b) else {
            break;
        };
        same = last_same(differing, here, same);
        differing = note_row(places, differing, here.rows as u32, pair.differing, count);
        here = Abreast {
            rows: here.rows + 1,
            first: pair.next,
            second: pair.other,
        };
    }
    Stepped {
        differing,
        end: here,
        same,
    }
}

// All that differs, and none of it noted.
fn count_differing(
    cols: Columns,
    from: Rows,
    first: &[u8],
    kind: Rows,
    second: &[u8],
    a: &mut [i64],
    b: &mut [i64],
) -> Stepped
    requires { Within (listed cols) × (length first.now < 2 ^ 32) × (most_elements ≤ length a.old) × (most_elements ≤ length b.old) }
    ensures counts { Counts from (listed cols) first.now kind second.now result }
    ensures a_len_unchanged { length a.new ≡ length a.old }
    ensures b_len_unchanged { length b.new ≡ length b.old }
{
    let mut none = [0u32; 1];
    let start = Abreast {
        rows: 0,
        first: 0,
        second: 0,
    };
    step_rows(cols, from, first, kind, second, start, ALL, &mut none, a, b)
}

// ---- the call

fn refuse(number: u64, row: u64, column: u64, input: u64) -> Comparison
    ensures { result ≡ refused_in input (record { number = number; row = row; column = column; rows = 0; bytes = 0 }) }
{
    Comparison {
        number,
        row,
        column,
        input,
        differing: 0,
        first: 0,
        second: 0,
        places: 0,
    }
}

// The rows that one has beyond the other.
fn beyond(rows: u64, others: u64) -> u64
    ensures { result ≡ rows - others }
{
    if others < rows { rows - others } else { 0 }
}

// How many places are filled in a buffer of that size.
fn filled(places: usize, size: usize) -> usize
    ensures { result ≡ filled places size }
{
    if size / 2 < places { size / 2 } else { places }
}

// As many places as fit into the buffer: both inputs in step once more, from the first row that differs to where the buffer is full.
fn fill(
    cols: Columns,
    from: Rows,
    first: &[u8],
    kind: Rows,
    second: &[u8],
    s: Stepped,
    places: &mut [u32],
    a: &mut [i64],
    b: &mut [i64],
)
    requires { Within (listed cols) × (length first.now < 2 ^ 32) × StandIn first.now second.now s.same × (most_elements ≤ length a.old) × (most_elements ≤ length b.old) }
    ensures { Counts from (listed cols) first.now kind second.now s → places.new ≡ placed (in_step from (listed cols) first.now kind second.now) places.old }
{
    let same = s.same;
    let most = filled(s.differing, places.len());
    step_rows(cols, from, first, kind, second, same, most, places, a, b);
}

// The rows of two inputs. A refusal of either comes before anything is written, so what differs is counted without the buffer first, and what is left of
// each is passed over.
fn compare_rows(
    cols: Columns,
    from: Rows,
    first: &[u8],
    kind: Rows,
    second: &[u8],
    places: &mut [u32],
) -> Comparison
    requires { Within (listed cols) × (length first.now < 2 ^ 32) }
    ensures value { result ≡ (compared_as (rows_both (listed cols) from first.now kind second.now) places.old).answer }
    ensures places_after { places.new ≡ (compared_as (rows_both (listed cols) from first.now kind second.now) places.old).buffer }
{
    let mut a = [0i64; table::MOST_ELEMENTS];
    let mut b = [0i64; table::MOST_ELEMENTS];
    let s = count_differing(cols, from, first, kind, second, &mut a, &mut b);
    let end = s.end;
    let p = pass_rows(cols, from, first, end.first, end.rows, &mut a);
    if p.number != 0 {
        return refuse(p.number, p.row, p.column, 0);
    }
    let q = pass_rows(cols, kind, second, end.second, end.rows, &mut b);
    if q.number != 0 {
        return refuse(q.number, q.row, q.column, 1);
    }
    fill(cols, from, first, kind, second, s, places, &mut a, &mut b);
    let differing = s.differing;
    let more = beyond(p.rows, q.rows);
    let fewer = beyond(q.rows, p.rows);
    let noted = filled(differing, places.len());
    Comparison {
        number: 0,
        row: 0,
        column: 0,
        input: 0,
        differing: differing as u64,
        first: more,
        second: fewer,
        places: noted as u64,
    }
}

// The first input's rows, and a refusal of the second that stands before its own.
fn refuse_second(cols: Columns, from: Rows, first: &[u8], late: Refused) -> Comparison
    requires { Within (listed cols) }
    ensures { result ≡ behind_first (rows_shown 0 (read from (listed cols) first.now)) (refused_in 1 (before_rows (refusal_of late))) }
{
    let mut a = [0i64; table::MOST_ELEMENTS];
    let p = pass_rows(cols, from, first, 0, 0, &mut a);
    if p.number != 0 {
        return refuse(p.number, p.row, p.column, 0);
    }
    refuse(late.reason.number(), 0, late.column as u64, 1)
}

// Two inputs under the same declarations: the front of each, then their rows.
pub fn compare(
    decls: &[u8],
    from: Rows,
    first: &[u8],
    kind: Rows,
    second: &[u8],
    places: &mut [u32],
) -> Comparison
    ensures { Compares decls.now from first.now kind second.now places.old result places.new }
{
    let cols = match front(decls, first.len()) {
        Ok(cols) => cols,
        Err(refused) => return refuse(refused.reason.number(), 0, refused.column as u64, 0),
    };
    match front(decls, second.len()) {
        Ok(_same) => compare_rows(cols, from, first, kind, second, places),
        Err(late) => refuse_second(cols, from, first, late),
    }
}
