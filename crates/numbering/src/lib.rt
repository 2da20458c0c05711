// What the functions for C have in common: a kind of rows by its number, and an answer as the numbers that a caller gets.
#![tactic(auto)]

ghost use Rattle.std.specs.Prelude.{◌≡◌};
ghost use Rattle.numbering.specs.Numbering.{binary_of, eight, five, joined_numbers, joined_of, rows_of, six};

use compare::Comparison;
use convert::Piece;
use parts::Joined;
use table::{Answer, Rows};

// Into arrays that C lends; no From, since neither an array nor an answer is a type of this crate.
pub fn put_answer(a: Answer, answer: &mut [u64; 5])
    ensures { answer.new ≡ five a }
{
    *answer = [a.number, a.row, a.column, a.rows, a.bytes];
}

pub fn put_piece(piece: Piece, answer: &mut [u64; 6])
    ensures { answer.new ≡ six piece.answer piece.place }
{
    let a = piece.answer;
    let place = piece.place as u64;
    *answer = [a.number, a.row, a.column, a.rows, a.bytes, place];
}

// A kind of rows by its number, or none.
pub fn rows_of(number: u32) -> Option<Rows>
    ensures { result ≡ rows_of number }
{
    match number {
        0 => Some(Rows::TableData),
        1 => Some(Rows::Binary),
        2 => Some(Rows::Binary2),
        _ => None,
    }
}

// BINARY or BINARY2 by its number, or none.
pub fn binary_of(number: u32) -> Option<Rows>
    ensures { result ≡ binary_of number }
{
    match number {
        1 => Some(Rows::Binary),
        2 => Some(Rows::Binary2),
        _ => None,
    }
}

pub fn put_comparison(c: Comparison, answer: &mut [u64; 8])
    ensures { answer.new ≡ eight c }
{
    *answer = [
        c.number,
        c.row,
        c.column,
        c.input,
        c.differing,
        c.first,
        c.second,
        c.places,
    ];
}

pub fn joined_of(joined: &[u64; 8]) -> Joined
    ensures { result ≡ joined_of joined.now }
{
    let [number, row, column, rows, bytes, place, parts, ended] = *joined;
    Joined {
        number,
        row,
        column,
        rows,
        bytes,
        place,
        parts,
        ended,
    }
}

pub fn put_joined(j: Joined, joined: &mut [u64; 8])
    ensures { joined.new ≡ joined_numbers j }
{
    *joined = [
        j.number, j.row, j.column, j.rows, j.bytes, j.place, j.parts, j.ended,
    ];
}
