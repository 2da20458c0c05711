// How a cell begins.
ghost use Rattle.std.specs.Prelude.{◌≤◌, length};
ghost use Rattle.tabledata_reading.specs.Openings.{OpeningIs};

use text::{ends, goes_on};

// How a cell begins: `<TD/>`, or `<TD>` and its content; and the place after that.
#[derive(Clone, Copy)]
pub enum Opening {
    Empty(usize),
    Content(usize),
}

// `<TD`, then `/>` or `>`, each after white space.
fn careful_open(s: &[u8], at: usize) -> Option<Opening>
    requires { at ≤ length s.now }
    ensures { OpeningIs s.now at result }
{
    let i = ends(s, at, b"<TD")?;
    if let Some(next) = ends(s, i, b"/>") {
        return Some(Opening::Empty(next));
    }
    let from = ends(s, i, b">")?;
    Some(Opening::Content(from))
}

// Mostly a cell begins with just `<TD>`.
pub(crate) fn open_cell(s: &[u8], at: usize) -> Option<Opening>
    requires { at ≤ length s.now }
    ensures { OpeningIs s.now at result }
{
    match goes_on(s, at, b"<TD>") {
        Some(from) => Some(Opening::Content(from)),
        None => careful_open(s, at),
    }
}
