// The tags of a TABLEDATA row, read and written.
#![tactic(auto)]

ghost use Rattle.std.specs.Prelude.{◌+◌, ◌≤◌, drop, length, ◌++◌};
ghost use Rattle.table.specs.Bytes.{bytes, skip_white, tag};
ghost use Rattle.table.specs.Wrote.{Wrote};
ghost use Rattle.tabledata.specs.TableData.{close-TR, open-TR};
ghost use Rattle.text.specs.Clauses.{TagIs};

use text::{put_bytes, skip_white, whole_tag};

// `<TR>`, after white space.
pub fn row_begins(s: &[u8], at: usize) -> Option<usize>
    requires { at ≤ length s.now }
    ensures { TagIs (λ n. tag n open-TR (skip_white (drop at s.now))) s.now at result }
{
    let i = skip_white(s, at);
    whole_tag(s, i, b"<TR")
}

// `</TR>`, after white space.
pub fn row_ends(s: &[u8], at: usize) -> Option<usize>
    requires { at ≤ length s.now }
    ensures { TagIs (λ n. tag n close-TR (skip_white (drop at s.now))) s.now at result }
{
    let i = skip_white(s, at);
    whole_tag(s, i, b"</TR")
}

// ---- a row that is written

// "one line per row, byte 10 at its end, nothing else between tags"
pub fn write_row_start(out: &mut [u8], at: usize) -> usize
    requires { at + 4 ≤ length out.old }
    ensures { Wrote out.old at (open-TR ++ bytes ">") out.new result }
{
    put_bytes(out, at, b"<TR>")
}

pub fn write_row_end(out: &mut [u8], at: usize) -> usize
    requires { at + 6 ≤ length out.old }
    ensures { Wrote out.old at (close-TR ++ bytes ">\n") out.new result }
{
    put_bytes(out, at, b"</TR>\n")
}
