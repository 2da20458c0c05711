// Integer cells, word by word.
ghost use Rattle.std.specs.Prelude.{◌<◌, ◌≤◌, drop, length, ◌≡◌};
ghost use Rattle.number.specs.Clauses.{is_signed, size, width_of};
ghost use Rattle.words.specs.Words.{feed, fresh};
ghost use Rattle.table.specs.Shape.{Whole};
ghost use Rattle.tabledata.specs.TableData.{integer_word};
ghost use Rattle.element_reading.specs.Words.{Adds, QuickWordIs, begun_form, letter_of, space_at};
ghost use Rattle.character_reading.specs.Characters.{TextEnds};
ghost use Rattle.element_reading.specs.Elements.{TakesElements, elements_from};

use super::elements::{Held, judged, put};
use super::pieces::{Letters, Piece, next_piece};
use character_reading::characters::Source;
use number::Integer;
use table::Reason;
use text::goes_on;
use words::{Form, IntegerError, Word};

// A character as a letter of a word; one that is no byte is as little a letter of an integer as 255 is.
fn letter_of(c: u32) -> u8
    ensures { result ≡ letter_of c }
{
    if c < 256 {
        return c as u8;
    }
    255
}

// A word as the integers' reader has it.
impl Letters for Word {
    ghost stands = { λ x w. x ≡ feed fresh w };

    fn none() -> Word {
        Word::new()
    }

    fn and(self, c: u32) -> Word {
        self.next(letter_of(c))
    }
}

// Has the word a letter?
fn is_begun(form: Form) -> bool
    ensures { result ≡ begun_form form }
{
    !matches!(form, Form::Start)
}

// A word's element is stored; a word of no letters has none. How many elements there are with it.
fn add_integer(
    word: Word,
    kind: Integer,
    scratch: &mut [i64],
    count: usize,
) -> Result<usize, Reason>
    requires { count < 18446744073709551615 }
    ensures { Adds (integer_word (is_signed kind) (size kind)) (λ w. word ≡ feed fresh w) count scratch.old scratch.new result }
{
    if !is_begun(word.form) {
        return Ok(count);
    }
    match word.read(kind) {
        Err(IntegerError::Outside) => Err(Reason::OutOfRange),
        Err(IntegerError::Unwritten) => Err(Reason::NoElement),
        Ok(z) => {
            put(scratch, count, z);
            Ok(count + 1)
        }
    }
}

// Is a place that of a space?
fn is_space(s: &[u8], at: usize) -> bool
    ensures { result ≡ space_at s.now at }
{
    at < s.len() && s[at] == b' '
}

// Does a text end just here, a cell's with a bare `</TD>`? The place after it.
fn ends_at(s: &[u8], at: usize, source: Source) -> Option<usize>
    requires { at ≤ length s.now }
    ensures { TextEnds source s.now at result }
{
    match source {
        Source::Markup => goes_on(s, at, b"</TD>"),
        Source::Plain if at < s.len() => None,
        Source::Plain => Some(at),
    }
}

// The word at a place, read at once where it is plain digits, with a space behind it or just the end; any other is for the careful way.
fn quick_word(s: &[u8], from: usize, source: Source, kind: Integer) -> Option<Piece<i64>>
    requires { from ≤ length s.now }
    ensures { QuickWordIs kind source s.now from result }
{
    if s.len() <= from {
        return None;
    }
    let (z, end) = words::quick_integer(s, from, kind)?;
    if is_space(s, end) {
        return Some(Piece::Cut(z, end + 1));
    }
    let next = ends_at(s, end, source)?;
    Some(Piece::Last(z, next))
}

// The elements of an integer cell: each word at once where it is plain digits, or letter by letter.
pub(crate) fn integers(
    s: &[u8],
    from: usize,
    source: Source,
    kind: Integer,
    scratch: &mut [i64],
) -> Result<Held, Reason>
    requires { from ≤ length s.now }
    ensures { TakesElements (elements_from source (Whole (is_signed kind) (width_of kind)) (drop from s.now)) s.now from scratch.old scratch.new result }
{
    let mut i = from;
    let mut count = 0;
    let mut bad = None;
    loop {
        match quick_word(s, i, source, kind) {
            Some(Piece::Cut(z, next)) => {
                put(scratch, count, z);
                count += 1;
                i = next;
            }
            Some(Piece::Last(z, next)) => {
                put(scratch, count, z);
                return judged(bad, Ok(count + 1), next);
            }
            None => match next_piece::<Word>(s, i, source)? {
                Piece::Last(word, next) => {
                    return judged(bad, add_integer(word, kind, scratch, count), next);
                }
                Piece::Cut(word, next) => {
                    match add_integer(word, kind, scratch, count) {
                        Ok(more) => count = more,
                        Err(reason) => bad = bad.or(Some(reason)),
                    }
                    i = next;
                }
            },
        }
    }
}
