// A row of a stream found by an index: rows are passed over from the start that its place holds.
#![tactic(auto)]

ghost use Rattle.std.specs.Prelude.{◌≡◌, ◌≤◌, ltb, drop, length, cond};
ghost use Rattle.table.specs.Cell.{most_elements};
ghost use Rattle.table.specs.ColumnList.{listed};
ghost use Rattle.rows.specs.Bounds.{Within};
ghost use Rattle.index.specs.Fetch.{fetch_indexed, fetch_row};
ghost use Rattle.finding.specs.Clauses.{Finds};

use row_reading::pass_row;
use table::{Columns, Reason, Refused, Rows};

// One row in so many has an entry.
const SPACING: u64 = 64;

// The row that is asked for: where it starts, and the place after it.
#[derive(Clone, Copy)]
pub struct Wanted {
    pub start: usize,
    pub next: usize,
}

// The row behind so many others from a place on; or the refusal of a row that does not read, itself or one before it.
fn find_from(
    cols: Columns,
    from: Rows,
    s: &[u8],
    start: usize,
    before: u64,
    scratch: &mut [i64],
) -> Result<Wanted, Refused>
    requires { Within (listed cols) × (start ≤ length s.now) × (most_elements ≤ length scratch.old) }
    ensures { Finds from (listed cols) s.now (λ room. fetch_row from (listed cols) room before (drop start s.now)) result }
{
    let mut at = start;
    for _ in 0..before {
        at = pass_row(cols, from, s, at, scratch)?;
    }
    let next = pass_row(cols, from, s, at, scratch)?;
    Ok(Wanted { start: at, next })
}

// A start past the end is the end.
fn within(start: usize, end: usize) -> usize
    ensures { result ≡ cond (ltb start end) start end }
{
    if start < end { start } else { end }
}

// The row by the index: from the start that its place holds.
pub fn find_row(
    cols: Columns,
    from: Rows,
    s: &[u8],
    index: &[u32],
    rows: u64,
    row: u64,
) -> Result<Wanted, Refused>
    requires { Within (listed cols) }
    ensures { Finds from (listed cols) s.now (λ room. fetch_indexed from (listed cols) room s.now index.now rows row) result }
{
    if rows <= row {
        return Err(Refused {
            reason: Reason::NoSuchRow,
            column: 0,
        });
    }
    let place = (row / SPACING) as usize;
    if index.len() <= place {
        return Err(Refused {
            reason: Reason::NoSuchRow,
            column: 0,
        });
    }
    let entry = index[place] as usize;
    let start = within(entry, s.len());
    let mut scratch = [0i64; table::MOST_ELEMENTS];
    find_from(cols, from, s, start, row % SPACING, &mut scratch)
}
