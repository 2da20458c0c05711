// "A cell shows null or a list of elements."
ghost use Rattle.std.specs.Prelude.{◌≤◌, drop, length, ◌≡◌};
ghost use Rattle.table.specs.Cell.{bound, most_elements, room_fits};
ghost use Rattle.table.specs.Clauses.{Reads};
ghost use Rattle.table.specs.Shape.{shape};
ghost use Rattle.tabledata.specs.TableData.{read_text};
ghost use Rattle.tabledata_reading.specs.Cells.{CellShows, room_and};

use super::openings::{Opening, open_cell};
use element_reading::{Source, read_elements};
use table::{Column, Found, Kind, Len, Reason, is_char};

// "not n of them in a fixed column; fixed char may be shorter, not longer"
fn fills(kind: Kind, n: usize, count: usize) -> bool
    ensures { result ≡ room_fits (shape kind) n count }
{
    if is_char(kind) {
        count <= n
    } else {
        count == n
    }
}

// Does a count above 0 fit the column?
fn count_fits(kind: Kind, len: Len, count: usize) -> bool
    ensures { result ≡ room_and kind len count }
{
    match len {
        Len::Fixed(n) => fills(kind, n, count) && count <= n,
        Len::Bounded(n) => count <= n,
        Len::Free => count <= table::MOST_ELEMENTS,
    }
}

// How many elements a column shows where its cell has so many; none where it is null.
fn cell_shows(column: Column, count: usize, scratch: &[i64]) -> Result<Option<usize>, Reason>
    requires { (bound column.len ≤ most_elements) × (most_elements ≤ length scratch.now) }
    ensures { CellShows column count scratch.now result }
{
    if count == 0 {
        return Ok(None);
    }
    if !count_fits(column.kind, column.len, count) {
        return Err(Reason::ElementCount);
    }
    if table::is_null(column, count, scratch) {
        return Ok(None);
    }
    Ok(Some(count))
}

// A cell at a place: "a text cell 10, 11, 12".
pub fn read_text(s: &[u8], at: usize, column: Column, scratch: &mut [i64]) -> Result<Found, Reason>
    requires { (at ≤ length s.now) × (bound column.len ≤ most_elements) × (most_elements ≤ length scratch.old) }
    ensures { Reads (read_text column (drop at s.now)) s.now at scratch.old scratch.new result }
{
    match open_cell(s, at).ok_or(Reason::Markup)? {
        Opening::Empty(next) => Ok(Found { shown: None, next }),
        Opening::Content(from) => {
            let held = read_elements(s, from, Source::Markup, column.kind, scratch)?;
            let shown = cell_shows(column, held.count, scratch)?;
            Ok(Found {
                shown,
                next: held.next,
            })
        }
    }
}
