// Boolean cells, word by word.
ghost use Rattle.std.specs.Prelude.{◌<◌, ◌≤◌, drop, length, ◌≡◌};
ghost use Rattle.table.specs.Shape.{Truths};
ghost use Rattle.tabledata.specs.TableData.{lower, truth_word};
ghost use Rattle.element_reading.specs.Words.{Adds, spell, spelling, truth_number};
ghost use Rattle.element_reading.specs.Elements.{TakesElements, elements_from};

use super::elements::{Held, as_element, judged, put};
use super::pieces::{Letters, Piece, next_piece};
use character_reading::characters::Source;
use table::Reason;

// A capital as a small letter.
fn lower_case(c: u32) -> u32
    requires { c < 128 }
    ensures { (result ≡ lower c) × (result < 128) }
{
    match c {
        65..=90 => c + 32,
        _ => c,
    }
}

// A word as a number, base 256 and without capitals, with a 1 before its first letter; more than six letters are all the same, and so is what has
// a letter that is not ASCII.
fn with_letter(word: u64, c: u32) -> u64
    ensures { result ≡ spell word c }
{
    if 281474976710656 <= word || 128 <= c {
        return 281474976710656;
    }
    word * 256 + (lower_case(c) as u64)
}

// A word as that number.
#[derive(Clone, Copy)]
pub(crate) struct Spelling {
    pub number: u64,
}

impl Letters for Spelling {
    ghost stands = { λ q w. q.number ≡ spelling w };

    fn none() -> Spelling {
        Spelling { number: 1 }
    }

    fn and(self, c: u32) -> Spelling {
        Spelling {
            number: with_letter(self.number, c),
        }
    }
}

// "boolean: `T t 1 F f 0 ?`, or true or false in any capitals".
#[tactic(auto, unfolding(crate::specs::Words::truth_number))]
fn truth_of(word: u64) -> Option<u32>
    ensures { result ≡ truth_number word }
{
    match word {
        0x174 | 0x131 | 0x1_7472_7565 => Some(1),
        0x166 | 0x130 | 0x166_616c_7365 => Some(0),
        0x13f => Some(2),
        _ => None,
    }
}

// A word's element is stored; a word of no letters has none. How many elements there are with it.
fn add_truth(word: u64, scratch: &mut [i64], count: usize) -> Result<usize, Reason>
    requires { count < 18446744073709551615 }
    ensures { Adds truth_word (λ w. word ≡ spelling w) count scratch.old scratch.new result }
{
    if word == 1 {
        return Ok(count);
    }
    let truth = truth_of(word).ok_or(Reason::NoElement)?;
    put(scratch, count, as_element(truth));
    Ok(count + 1)
}

// The elements of a boolean cell, word by word.
pub(crate) fn truths(
    s: &[u8],
    from: usize,
    source: Source,
    scratch: &mut [i64],
) -> Result<Held, Reason>
    requires { from ≤ length s.now }
    ensures { TakesElements (elements_from source Truths (drop from s.now)) s.now from scratch.old scratch.new result }
{
    let mut i = from;
    let mut count = 0;
    let mut bad = None;
    loop {
        match next_piece::<Spelling>(s, i, source)? {
            Piece::Last(word, next) => {
                return judged(bad, add_truth(word.number, scratch, count), next);
            }
            Piece::Cut(word, next) => {
                match add_truth(word.number, scratch, count) {
                    Ok(more) => count = more,
                    Err(reason) => bad = bad.or(Some(reason)),
                }
                i = next;
            }
        }
    }
}
