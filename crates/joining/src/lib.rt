// Parts that were converted each by itself, joined in order: a part more, and a list of them as numbers.
#![tactic(auto)]

ghost use Rattle.std.specs.Prelude.{◌≡◌, cond, true, ◌+◌, ◌≤◌, eqb};
ghost use Rattle.parts.specs.Join.{is_counted, is_final, is_used, join, joined_with, first_part, parts_of};

use parts::{Joined, Part};

const MOST_INPUT: u64 = 1_073_741_824;

// What 64 bits hold at most.
const MOST_COUNT: u128 = 18_446_744_073_709_551_615;

// How many numbers a part has.
const NUMBERS: usize = 9;

// A sum that may be more than 64 bits hold.
fn sum(a: u64, b: u64) -> u128
    ensures { result ≡ a + b }
{
    u128::from(a) + u128::from(b)
}

// ---- a part more

fn is_counted(j: Joined, p: Part) -> bool
    ensures { result ≡ is_counted j p }
{
    sum(j.place, p.place) <= MOST_COUNT
        && sum(j.rows, p.rows) <= MOST_COUNT
        && sum(j.rows, p.row) <= MOST_COUNT
        && sum(j.parts, 1) <= MOST_COUNT
}

// Does it begin where the rows done end, and have its rows room?
fn is_used(room: u64, j: Joined, p: Part) -> bool
    ensures { result ≡ is_used room j p }
{
    if j.ended != 0 || p.start != j.place || MOST_INPUT < p.length {
        return false;
    }
    sum(j.bytes, p.bytes) <= u128::from(room) && is_counted(j, p)
}

// Does the whole end with it? A part that was cut, or had too little room, says nothing of the row that it stopped at.
fn is_final(length: u64, room: u64, j: Joined, p: Part) -> bool
    ensures { result ≡ is_final length room j p }
{
    match p.number {
        17 => u128::from(room) <= sum(j.bytes, p.room),
        0 | 8 | 10 => sum(p.start, p.length) == u128::from(length),
        _ => true,
    }
}

// The row of the whole's answer: on acceptance 0.
fn row_behind(rows: u64, p: Part) -> u64
    requires { rows + p.row ≤ 18446744073709551615 }
    ensures { result ≡ cond (eqb p.number 0) 0 (rows + p.row) }
{
    if p.number == 0 { 0 } else { rows + p.row }
}

// The sums are within what 64 bits hold. That it has ended is a number, as all of it are numbers that the caller in C lends.
fn joined_with(length: u64, room: u64, j: Joined, p: Part) -> Joined
    requires { (is_counted j p ≡ true) × (j.bytes + p.bytes ≤ room) }
    ensures { result ≡ joined_with length room j p }
{
    let gone_on = Joined {
        number: 0,
        row: 0,
        column: 0,
        rows: j.rows + p.rows,
        bytes: j.bytes + p.bytes,
        place: j.place + p.place,
        parts: j.parts + 1,
        ended: 0,
    };
    if is_final(length, room, j, p) {
        return Joined {
            number: p.number,
            row: row_behind(j.rows, p),
            column: p.column,
            ended: 1,
            ..gone_on
        };
    }
    gone_on
}

// ---- parts as numbers

fn part_of(numbers: &[u64; NUMBERS]) -> Part
    ensures { result ≡ first_part numbers.now }
{
    let [start, length, room, number, row, column, rows, bytes, place] = *numbers;
    Part {
        start,
        length,
        room,
        number,
        row,
        column,
        rows,
        bytes,
        place,
    }
}

// Parts in order, until one is not used.
pub fn join(length: u64, room: u64, parts: &[u64], joined: Joined) -> Joined
    ensures { result ≡ join length room joined (parts_of parts.now) }
{
    let (nines, _) = parts.as_chunks::<NUMBERS>();
    let mut j = joined;
    for numbers in nines {
        let p = part_of(numbers);
        if !is_used(room, j, p) {
            return j;
        }
        j = joined_with(length, room, j, p);
    }
    j
}
