// One row of a stream by an index: the part of the stream that is the row, converted as a stream of its own.
#![tactic(auto)]

ghost use Rattle.std.specs.Prelude.{◌≡◌, length};
ghost use Rattle.table.specs.ColumnList.{listed};
ghost use Rattle.table.specs.Outcome.{answer_of, buffer_of};
ghost use Rattle.rows.specs.Bounds.{Within};
ghost use Rattle.index.specs.Fetch.{Fetches, asked_for, fetch_indexed};

use convert::convert_columns;
use declaring::front;
use finding::find_row;
use table::{Answer, Columns, Rows};

// The answer for a row by its number: a refusal stands at the row asked for.
fn asked_for(row: u64, a: Answer) -> Answer
    ensures { result ≡ asked_for row a }
{
    if a.number == 0 {
        return a;
    }
    Answer {
        number: a.number,
        row,
        column: a.column,
        rows: a.rows,
        bytes: a.bytes,
    }
}

// The row asked for, under a column list: its bytes are a stream of its own.
fn fetch_row(
    cols: Columns,
    from: Rows,
    s: &[u8],
    index: &[u32],
    rows: u64,
    row: u64,
    out: &mut [u8],
) -> Answer
    requires { Within (listed cols) }
    ensures value { result ≡ asked_for row (answer_of (fetch_indexed from (listed cols) (length out.old) s.now index.now rows row)) }
    ensures out_after { out.new ≡ buffer_of (fetch_indexed from (listed cols) (length out.old) s.now index.now rows row) out.old }
{
    match find_row(cols, from, s, index, rows, row) {
        Err(refused) => asked_for(row, refused.before_rows()),
        Ok(wanted) => {
            let line = &s[wanted.start..wanted.next];
            let a = convert_columns(cols, from, Rows::TableData, line, out);
            asked_for(row, a)
        }
    }
}

// A row of the stream as its TABLEDATA line: the front of the call, then the row by the index.
pub fn fetch(
    decls: &[u8],
    from: Rows,
    input: &[u8],
    index: &[u32],
    rows: u64,
    row: u64,
    out: &mut [u8],
) -> Answer
    ensures { Fetches decls.now from input.now index.now rows row out.old result out.new }
{
    match front(decls, input.len()) {
        Ok(cols) => fetch_row(cols, from, input, index, rows, row, out),
        Err(refused) => refused.before_rows(),
    }
}
