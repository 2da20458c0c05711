// Declarations to a column list: "FIELD elements with only white space around them"; and the front of a call. The text is read in place, by index.
#![tactic(auto)]

mod attributes;
mod columns;
mod elements;
mod spans;

ghost use Rattle.std.specs.Prelude.{[], ◌≡◌};
ghost use Rattle.table.specs.ColumnList.{holding};
ghost use Rattle.fields.specs.Fields.{declare};
ghost use Rattle.fields.specs.Front.{front};
ghost use Rattle.declaring.specs.Clauses.{Answered, refusal};

use columns::judge;
use elements::read_field;
use table::{Columns, Kind, Len, Reason, Refused, column_of};
use text::skip_white;

// "declarations up to 65,536 bytes", "any row input [..] up to 1,073,741,824 bytes"
const MOST_DECLARATIONS: usize = 65_536;

const MOST_INPUT: usize = 1_073_741_824;

fn no_columns() -> Columns
    ensures { result ≡ holding [] }
{
    let none = column_of(Kind::Boolean, Len::Fixed(0), None);
    let list = [none; 64];
    Columns { list, count: 0 }
}

// "The place is the number of whole FIELDs before"
fn refuse(reason: Reason, place: usize) -> Result<Columns, Refused>
    ensures { result ≡ refusal reason place }
{
    Err(Refused {
        reason,
        column: place,
    })
}

// The columns, or a refusal, and then "no column list is handed out".
pub fn declare(text: &[u8]) -> Result<Columns, Refused>
    ensures { Answered (declare text.now) result }
{
    if MOST_DECLARATIONS < text.len() {
        return refuse(Reason::TooLarge, 0);
    }
    let mut columns = no_columns();
    let mut at = skip_white(text, 0);
    while at < text.len() {
        let k = columns.count;
        let Some(e) = read_field(text, at) else {
            return refuse(Reason::Field, k);
        };
        // Tried: `map_err` and `?`; the proof did not close, as what the closure promises has no name to cite.
        match judge(text, e) {
            Err(reason) => return refuse(reason, k),
            Ok(c) => {
                if k == 64 {
                    return refuse(Reason::ColumnCount, 64);
                }
                columns.list[k] = c;
                columns.count = k + 1;
            }
        }
        at = skip_white(text, e.next);
    }
    if columns.count == 0 {
        return refuse(Reason::ColumnCount, 0);
    }
    Ok(columns)
}

// The front of a call on rows: the declarations, then the input's size, then the columns.
pub fn front(decls: &[u8], size: usize) -> Result<Columns, Refused>
    ensures { Answered (front decls.now size) result }
{
    let columns = declare(decls)?;
    if MOST_INPUT < size {
        return refuse(Reason::TooLarge, 0);
    }
    Ok(columns)
}
