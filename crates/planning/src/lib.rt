// A plan, found once for a table: what the cells of each column want, in small structs, so that a cell of BINARY or BINARY2 is one decision. What
// has no step of its own here goes by its column.
#![tactic(auto)]

ghost use Rattle.std.specs.Prelude.{◌≡◌, ◌≤◌};
ghost use Rattle.planning.specs.Plan.{no_step, plan_of, step_of, want_of};
ghost use Rattle.rows.specs.Bounds.{Within};
ghost use Rattle.table.specs.Cell.{bound, most_elements};
ghost use Rattle.table.specs.ColumnList.{listed};
ghost use Rattle.table.specs.Shape.{shape};

use binary::content_bytes;
use number::{Elements, Integer, elements_of};
use table::{Column, Columns, Kind, Len};

// One integer, which may stand for null; or bytes that go as they stand among BINARY and BINARY2.
#[derive(Clone, Copy)]
pub enum Want {
    Bytes,
    Integer(Integer),
}

// What a column's cells want, where they have a step of their own, the bytes of a cell, and the declared null.
#[derive(Clone, Copy)]
pub struct Step {
    pub want: Option<Want>,
    pub bytes: usize,
    pub null: Option<i64>,
}

// A step for each column.
#[derive(Clone, Copy)]
pub struct Plan {
    pub list: [Step; 64],
}

fn want_of(kind: Kind, n: usize) -> Option<Want>
    ensures { result ≡ want_of (shape kind) n }
{
    match elements_of(kind) {
        Elements::Truths | Elements::Text => None,
        Elements::Bits => {
            if n % 8 == 0 {
                return Some(Want::Bytes);
            }
            None
        }
        Elements::Whole(integer) => {
            if n == 1 {
                return Some(Want::Integer(integer));
            }
            Some(Want::Bytes)
        }
    }
}

fn step_of(column: Column) -> Step
    requires { bound column.len ≤ most_elements }
    ensures { result ≡ step_of column }
{
    let kind = column.kind;
    let len = column.len;
    let null = column.null;
    match len {
        Len::Fixed(n) => Step {
            want: want_of(kind, n),
            bytes: content_bytes(kind, n),
            null,
        },
        Len::Bounded(_) => no_step(),
        Len::Free => no_step(),
    }
}

fn no_step() -> Step
    ensures { result ≡ no_step }
{
    Step {
        want: None,
        bytes: 0,
        null: None,
    }
}

pub fn plan_of(cols: Columns) -> Plan
    requires { Within (listed cols) }
    ensures { result ≡ plan_of (listed cols) }
{
    let none = no_step();
    let mut list = [none; 64];
    for i in 0..cols.count {
        list[i] = step_of(cols.list[i]);
    }
    Plan { list }
}
