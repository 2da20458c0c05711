// Places in a buffer: the row and the column of each cell that differs, two numbers each, one behind the other.
#![tactic(auto)]

ghost use Rattle.std.specs.Prelude.{◌≡◌, ◌+◌, ◌<◌, ◌^◌, ◌≤◌};
ghost use Rattle.number.specs.Number.{to_digits};
ghost use Rattle.noting.specs.Places.{Notes, marked, marked_at, noted_at};

use flags::is_flagged;

// A place behind so many others, where there are two numbers for it.
fn note(places: &mut [u32], noted: usize, row: u32, column: u32)
    ensures { places.new ≡ noted_at noted row column places.old }
{
    if noted < places.len() / 2 {
        places[2 * noted] = row;
        places[2 * noted + 1] = column;
    }
}

// A column of a row, if its cells differ: how many places there are with it.
fn note_column(places: &mut [u32], noted: usize, row: u32, column: u32, differs: bool) -> usize
    requires { noted + 1 < 2 ^ 64 }
    ensures { Notes noted places.old (marked_at row column differs) places.new result }
{
    if !differs {
        return noted;
    }
    note(places, noted, row, column);
    noted + 1
}

// The places of a row, by the flags of its columns, behind so many others.
pub fn note_row(places: &mut [u32], noted: usize, row: u32, differing: u64, count: usize) -> usize
    requires { (count ≤ 64) × (noted + count < 2 ^ 64) }
    ensures { Notes noted places.old (marked row 0 (to_digits 2 count differing)) places.new result }
{
    if differing == 0 {
        return noted;
    }
    let mut n = noted;
    for i in 0..count {
        let differs = is_flagged(differing, count, i);
        n = note_column(places, n, row, i as u32, differs);
    }
    n
}
