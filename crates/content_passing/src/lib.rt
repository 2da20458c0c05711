// Contents of cells that go from BINARY or BINARY2 to BINARY or BINARY2: most go as they stand.
#![tactic(auto)]

ghost use Rattle.std.specs.Prelude.{Some, [], ◌∷◌, ◌≡◌, ◌*◌, ◌+◌, ◌<◌, ◌≤◌, drop, length, take};
ghost use Rattle.eights.specs.Marks.{is_letter, run};
ghost use Rattle.moving.specs.Contents.{AsBinary, FindsOne, InBinary, MovesContent, content_form};
ghost use Rattle.moving.specs.Puts.{Puts};
ghost use Rattle.number.specs.Clauses.{is_signed, size, width_of};
ghost use Rattle.binary.specs.Binary.{all_zero, bit_bytes, bits_of, content_bytes, truth};
ghost use Rattle.table.specs.Cell.{most_elements};
ghost use Rattle.table.specs.Shape.{Bits, Text, Truths, Whole, shape};
ghost use Rattle.content_passing.specs.Letters.{letter_of};
ghost use Rattle.content_passing.specs.Passes.{Passes};

use eights::{copy_wide, letters_ahead};
use moving::{Content, One};
use number::{Elements, Integer, elements_of};
use table::Kind;

// ---- booleans

// The letter that a byte of a boolean is written as, 0 for a byte that is none. No branch, so that a loop over it is vector code.
pub fn truth_letter(b: u8) -> u8
    ensures { result ≡ letter_of (truth b) }
{
    let is_true = (b == b'T') | (b == b't') | (b == b'1');
    let is_false = (b == b'F') | (b == b'f') | (b == b'0');
    let is_unknown = (b == 0) | (b == b' ') | (b == b'?');
    (is_true as u8) * 84 + (is_false as u8) * 70 + (is_unknown as u8) * 63
}

// ---- one element

// An integer by its value.
pub fn binary_integer(s: &[u8], at: usize, integer: Integer) -> One
    requires { at + size integer ≤ length s.now }
    ensures { FindsOne (InBinary (Whole (is_signed integer) (width_of integer)) 1 s.now at) (Some result) }
{
    let value = integers::read_integer(s, at, integer);
    One {
        value,
        next: at + number::integer_bytes(integer),
    }
}

// A boolean by its value.
pub fn binary_truth(s: &[u8], at: usize) -> Option<One>
    requires { at < length s.now }
    ensures { FindsOne (InBinary Truths 1 s.now at) result }
{
    let letter = truth_letter(s[at]);
    if letter == 0 {
        return None;
    }
    let value = ((letter == b'T') as u8) + ((letter == b'?') as u8) * 2;
    Some(One {
        value: value as i64,
        next: at + 1,
    })
}

// The low bytes of an integer, as many as its kind has.
pub fn pass_integer(integer: Integer, z: i64, row: &mut [u8], o: usize) -> usize
    requires { o + 8 ≤ length row.old }
    ensures { Puts row.old o (content_form (Whole (is_signed integer) (width_of integer)) (z ∷ [])) row.new result }
{
    integers::write_integer(row, o, integer, z)
}

// The letter of a boolean.
pub fn pass_truth(z: i64, row: &mut [u8], o: usize) -> usize
    requires { o + 8 ≤ length row.old }
    ensures { Puts row.old o (content_form Truths (z ∷ [])) row.new result }
{
    row[o] = table::truth_byte(z);
    o + 1
}

// ---- a content as it stands

// For many bytes: the compiler makes vector code of it.
fn copy_many(s: &[u8], from: usize, n: usize, row: &mut [u8], o: usize) -> usize
    requires { (from + n + 8 ≤ length s.now) × (o + n + 8 ≤ length row.old) }
    ensures { Puts row.old o (take n (drop from s.now)) row.new result }
{
    for k in 0..n {
        row[o + k] = s[from + k];
    }
    o + n
}

// Few bytes eight at a time, many as vectors.
pub fn copy(s: &[u8], from: usize, n: usize, row: &mut [u8], o: usize) -> usize
    requires { (from + n + 8 ≤ length s.now) × (o + n + 8 ≤ length row.old) }
    ensures { Puts row.old o (take n (drop from s.now)) row.new result }
{
    if n <= 64 {
        return copy_wide(s, from, n, row, o);
    }
    copy_many(s, from, n, row, o)
}

// Integers are put as they stand, whatever their width.
fn pass_integers(
    integer: Integer,
    n: usize,
    s: &[u8],
    at: usize,
    row: &mut [u8],
    o: usize,
) -> Option<Content>
    requires { (n ≤ most_elements) × (at + n * size integer + 8 ≤ length s.now) × (o + n * size integer + 8 ≤ length row.old) }
    ensures { Passes (Whole (is_signed integer) (width_of integer)) n s.now at row.old o row.new result }
{
    let bytes = n * number::integer_bytes(integer);
    let end = copy(s, at, bytes, row, o);
    Some(Content {
        count: n,
        next: at + bytes,
        end,
    })
}

// ---- characters

// How many of the next n bytes come before the first that is no letter.
fn letters_in(n: usize, s: &[u8], at: usize) -> usize
    requires { at + n + 8 ≤ length s.now }
    ensures { result ≡ run is_letter (take n (drop at s.now)) }
{
    let mut k: usize = 0;
    while k < n {
        let ahead = letters_ahead(s, at + k);
        if ahead < 8 {
            return n.min(k + ahead);
        }
        k += 8;
    }
    n
}

// "A char cell shows the characters before the first NUL": a byte before it that is no letter is for the careful way.
fn pass_text(n: usize, s: &[u8], at: usize, row: &mut [u8], o: usize) -> Option<Content>
    requires { (at + n + 8 ≤ length s.now) × (o + n + 8 ≤ length row.old) }
    ensures { Passes Text n s.now at row.old o row.new result }
{
    let shown = letters_in(n, s, at);
    if (shown < n) & (s[at + shown] != 0) {
        return None;
    }
    let end = copy(s, at, shown, row, o);
    Some(Content {
        count: shown,
        next: at + n,
        end,
    })
}

// ---- bits

// Are the bits behind the n-th 0?
pub fn is_padded(n: usize, s: &[u8], at: usize) -> bool
    requires { (n ≤ most_elements) × (at + bit_bytes n ≤ length s.now) }
    ensures { result ≡ all_zero (drop n (bits_of (take (bit_bytes n) (drop at s.now)))) }
{
    let bytes = (n + 7) / 8;
    let spare = 8 * bytes - n;
    if spare == 0 {
        return true;
    }
    let unit = 1u64 << spare;
    (s[at + bytes - 1] as u64) % unit == 0
}

// A padding bit that is 1 is for the careful way.
fn pass_bits(n: usize, s: &[u8], at: usize, row: &mut [u8], o: usize) -> Option<Content>
    requires { (n ≤ most_elements) × (at + bit_bytes n + 8 ≤ length s.now) × (o + bit_bytes n + 8 ≤ length row.old) }
    ensures { Passes Bits n s.now at row.old o row.new result }
{
    if !is_padded(n, s, at) {
        return None;
    }
    let bytes = (n + 7) / 8;
    let end = copy(s, at, bytes, row, o);
    Some(Content {
        count: n,
        next: at + bytes,
        end,
    })
}

// ---- booleans in a row

// A byte that has no letter is for the careful way: that there is one is found behind the loop, which is vector code.
fn pass_truths(n: usize, s: &[u8], at: usize, row: &mut [u8], o: usize) -> Option<Content>
    requires { (at + n + 8 ≤ length s.now) × (o + n + 8 ≤ length row.old) }
    ensures { Passes Truths n s.now at row.old o row.new result }
{
    let mut none: u8 = 0;
    for k in 0..n {
        let letter = truth_letter(s[at + k]);
        row[o + k] = letter;
        none = none | ((letter == 0) as u8);
    }
    if none == 0 {
        return Some(Content {
            count: n,
            next: at + n,
            end: o + n,
        });
    }
    None
}

// ---- a content

// The elements of a cell, after its count and before what it is filled up with.
pub fn pass_content(
    kind: Kind,
    n: usize,
    s: &[u8],
    at: usize,
    row: &mut [u8],
    o: usize,
) -> Option<Content>
    requires { (n ≤ most_elements) × (at + content_bytes (shape kind) n + 8 ≤ length s.now) × (o + content_bytes (shape kind) n + 8 ≤ length row.old) }
    ensures { MovesContent (InBinary (shape kind) n s.now at) (AsBinary (shape kind)) row.old o row.new result }
{
    match elements_of(kind) {
        Elements::Truths => pass_truths(n, s, at, row, o),
        Elements::Bits => pass_bits(n, s, at, row, o),
        Elements::Text => pass_text(n, s, at, row, o),
        Elements::Whole(integer) => pass_integers(integer, n, s, at, row, o),
    }
}
