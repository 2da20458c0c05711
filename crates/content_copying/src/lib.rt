// The contents of cells of TABLEDATA as the text of a cell of TABLEDATA, in a row's buffer: most bytes go as they stand, and what is not plain is left
// to the careful way.
#![tactic(auto)]

ghost use Rattle.std.specs.Prelude.{◌+◌, ◌<◌, ◌≤◌, length, true, [], ◌++◌, ◌∷◌, ◌≡◌};
ghost use Rattle.content_copying.specs.Wording.{CopiesWord, InRange, NumeralTo, OwnTo};
ghost use Rattle.integer_reading.specs.Figures.{is_bit, is_digit};
ghost use Rattle.content_reading.specs.Letters.{LetterIs};
ghost use Rattle.content_showing.specs.Showing.{is_itself};
ghost use Rattle.moving.specs.Contents.{AsText, InText, MovesContent};
ghost use Rattle.moving.specs.Puts.{Puts};
ghost use Rattle.number.specs.Clauses.{is_signed, width_of};
ghost use Rattle.table.specs.Shape.{Bits, Text, Truths, Whole, shape};
ghost use Rattle.tabledata.specs.TableData.{truth_text};

use content_reading::{Letter, Test, letter_at, no_bits, run_end, text_truth};
use content_showing::{put_reference, put_word, show_truth, text_ahead};
use eights::{copy_wide, first_of};
use integer_reading::{no_digits, text_integer};
use integers::eight_bytes;
use moving::{Content, One};
use number::{Elements, Integer, elements_of};
use table::Kind;

// ---- which bytes go as they stand

// The bytes that are read and written as themselves.
struct Itself;

impl Test for Itself {
    ghost passes = { is_itself };

    fn ahead(s: &[u8], at: usize) -> usize {
        text_ahead(s, at)
    }
}

struct Bit;

impl Test for Bit {
    ghost passes = { is_bit };

    fn ahead(s: &[u8], at: usize) -> usize {
        first_of(no_bits(eight_bytes(s, at)))
    }
}

struct Digit;

impl Test for Digit {
    ghost passes = { is_digit };

    fn ahead(s: &[u8], at: usize) -> usize {
        first_of(no_digits(eight_bytes(s, at)))
    }
}

// ---- characters

// What stands between runs: a reference, a tab, a line's end, or a `>`, which is itself in a cell and is written as a reference.
fn other_letter(s: &[u8], at: usize) -> Option<Letter>
    requires { at + 8 ≤ length s.now }
    ensures { LetterIs s.now at result }
{
    if s[at] == b'>' {
        return Some(Letter {
            byte: b'>',
            next: at + 1,
        });
    }
    letter_at(s, at)
}

// Runs of bytes that go as they stand, and what stands between them, up to the `<` of the end tag.
fn copy_text(s: &[u8], from: usize, row: &mut [u8], first: usize) -> Option<Content>
    requires { (from ≤ length s.now) × (first ≤ length row.old) }
    ensures { MovesContent (InText Text s.now from) (AsText Text) row.old first row.new result }
{
    let mut at = from;
    let mut o = first;
    let mut count: usize = 0;
    loop {
        let end = run_end::<Itself>(s, at);
        let n = end - at;
        if s.len() - end < 8 {
            return None;
        }
        if row.len() - o < n + 8 {
            return None;
        }
        let e = copy_wide(s, at, n, row, o);
        count += n;
        if s[end] == b'<' {
            if count == 0 {
                return None;
            }
            return Some(Content {
                count,
                next: end,
                end: e,
            });
        }
        let Letter { byte: c, next } = other_letter(s, end)?;
        o = put_reference(c, row, e);
        if o == e {
            return None;
        }
        count += 1;
        at = next;
    }
}

// ---- bits

// A bit is written as the letter it was read from.
fn copy_bits(s: &[u8], from: usize, row: &mut [u8], first: usize) -> Option<Content>
    requires { (from ≤ length s.now) × (first ≤ length row.old) }
    ensures { MovesContent (InText Bits s.now from) (AsText Bits) row.old first row.new result }
{
    let end = run_end::<Bit>(s, from);
    let n = end - from;
    if n == 0 {
        return None;
    }
    if s.len() - end < 8 {
        return None;
    }
    if row.len() - first < n + 8 {
        return None;
    }
    let e = copy_wide(s, from, n, row, first);
    Some(Content {
        count: n,
        next: end,
        end: e,
    })
}

// ---- integers: a word of digits that is the shortest of its integer goes as it stands, without its integer

// So many digits are in the range of the kind, whichever they are.
fn most_digits(integer: Integer) -> usize
    ensures { InRange integer result }
{
    match integer {
        Integer::UnsignedByte => 2,
        Integer::Short => 4,
        Integer::Int => 9,
        Integer::Long => 18,
    }
}

// And after a minus.
fn most_after_minus(integer: Integer) -> usize
    ensures { InRange integer result × (1 ≤ result → is_signed integer ≡ true) }
{
    match integer {
        Integer::UnsignedByte => 0,
        Integer::Short => 4,
        Integer::Int => 9,
        Integer::Long => 18,
    }
}

// The end of a run of at most so many digits that does not begin with a 0, or is a 0 alone; its start where there is none.
fn numeral_end(s: &[u8], from: usize, most: usize) -> usize
    requires { from < length s.now }
    ensures { NumeralTo s.now from most result }
{
    let end = run_end::<Digit>(s, from);
    let n = end - from;
    if most < n {
        return from;
    }
    if s[from] != b'0' {
        return end;
    }
    if n == 1 {
        return end;
    }
    from
}

// The end of a word that is written as it stands, or its start.
fn word_end(integer: Integer, s: &[u8], at: usize) -> usize
    requires { at + 2 ≤ length s.now }
    ensures { OwnTo integer s.now at result }
{
    if s[at] != b'-' {
        return numeral_end(s, at, most_digits(integer));
    }
    if s[at + 1] == b'0' {
        return at;
    }
    let end = numeral_end(s, at + 1, most_after_minus(integer));
    if end == at + 1 {
        return at;
    }
    end
}

// A word's end, and the place after its bytes and a space behind them.
#[derive(Clone, Copy)]
struct Word {
    next: usize,
    end: usize,
}

// By its integer: what is not the shortest, or may be out of range.
fn other_word(integer: Integer, s: &[u8], at: usize, row: &mut [u8], o: usize) -> Option<Word>
    requires { (at ≤ length s.now) × (o + 40 ≤ length row.old) }
    ensures { CopiesWord integer s.now at row.old o row.new result }
{
    let One { value: z, next } = text_integer(s, at, integer)?;
    let e = put_word(z, row, o);
    Some(Word { next, end: e })
}

fn copy_word(integer: Integer, s: &[u8], at: usize, row: &mut [u8], o: usize) -> Option<Word>
    requires { (at ≤ length s.now) × (o + 40 ≤ length row.old) }
    ensures { CopiesWord integer s.now at row.old o row.new result }
{
    if s.len() - at < 32 {
        return None;
    }
    let end = word_end(integer, s, at);
    if end == at {
        return other_word(integer, s, at, row, o);
    }
    let e = copy_wide(s, at, end - at, row, o);
    row[e] = 32;
    Some(Word {
        next: end,
        end: e + 1,
    })
}

// One space between; the space behind the last is left out.
fn copy_integers(
    integer: Integer,
    s: &[u8],
    from: usize,
    row: &mut [u8],
    first: usize,
) -> Option<Content>
    requires { (from ≤ length s.now) × (first ≤ length row.old) }
    ensures { MovesContent (InText (Whole (is_signed integer) (width_of integer)) s.now from) (AsText (Whole (is_signed integer) (width_of integer))) row.old first row.new result }
{
    let mut at = from;
    let mut o = first;
    let mut count: usize = 0;
    loop {
        if row.len() - o < 40 {
            return None;
        }
        let Word { next, end: e } = copy_word(integer, s, at, row, o)?;
        count += 1;
        if s.len() <= next {
            return None;
        }
        if s[next] != b' ' {
            return Some(Content {
                count,
                next,
                end: e - 1,
            });
        }
        o = e;
        at = next + 1;
    }
}

// ---- booleans

// A boolean and a space behind it.
fn put_truth(z: i64, row: &mut [u8], o: usize) -> usize
    requires { o + 2 ≤ length row.old }
    ensures { Puts row.old o (truth_text z ++ (32 ∷ [])) row.new result }
{
    let next = show_truth(z, row, o);
    row[next] = 32;
    next + 1
}

fn copy_truths(s: &[u8], from: usize, row: &mut [u8], first: usize) -> Option<Content>
    requires { (from ≤ length s.now) × (first ≤ length row.old) }
    ensures { MovesContent (InText Truths s.now from) (AsText Truths) row.old first row.new result }
{
    let mut at = from;
    let mut o = first;
    let mut count: usize = 0;
    loop {
        let One { value: z, next } = text_truth(s, at)?;
        if s.len() <= next {
            return None;
        }
        if row.len() - o < 2 {
            return None;
        }
        o = put_truth(z, row, o);
        count += 1;
        if s[next] != b' ' {
            return Some(Content {
                count,
                next,
                end: o - 1,
            });
        }
        at = next + 1;
    }
}

// ---- a content

pub fn copy_content(kind: Kind, s: &[u8], at: usize, row: &mut [u8], o: usize) -> Option<Content>
    requires { (at ≤ length s.now) × (o ≤ length row.old) }
    ensures { MovesContent (InText (shape kind) s.now at) (AsText (shape kind)) row.old o row.new result }
{
    match elements_of(kind) {
        Elements::Truths => copy_truths(s, at, row, o),
        Elements::Bits => copy_bits(s, at, row, o),
        Elements::Whole(integer) => copy_integers(integer, s, at, row, o),
        Elements::Text => copy_text(s, at, row, o),
    }
}
