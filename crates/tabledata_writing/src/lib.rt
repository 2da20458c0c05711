// A cell of TABLEDATA is measured and written.
#![tactic(auto)]

ghost use Rattle.std.specs.Prelude.{◌+◌, ◌≤◌, List, pos, length, ◌∷◌, map, ◌≡◌, ℕ, ℤ};
ghost use Rattle.number.specs.Number.{shortest};
ghost use Rattle.table.specs.Cell.{most_elements};
ghost use Rattle.table.specs.Clauses.{ShownUpTo, ShownWithin, form_bytes, shown_as, size_as, size_of};
ghost use Rattle.table.specs.Shape.{Bits, Text, shape};
ghost use Rattle.table.specs.Wrote.{Wrote};
ghost use Rattle.tabledata.specs.TableData.{bit_text, element_bytes, form_of, forms, joined, spaced, text_bytes, truth_text, write_text};
ghost use Rattle.tabledata_writing.specs.Clauses.{FewBytes, form_size, size_with};

use number::{Elements, elements_of};
use table::{Column, Kind, Reason};
use tabledata::{is_plain, is_text};
use text::put_bytes;

// ---- a cell is measured

// The code of a char, 128 for what is none: a code without a form. An `Option` is no plainer: it would be a second way to have no form.
fn code_of(z: i64) -> u32
    ensures { (form_of z ≡ form_of (pos result)) × (result ≤ 128) }
{
    if z < 0 {
        return 128;
    }
    if 128 <= z {
        return 128;
    }
    z as u32
}

// How many bytes a char takes, if it has a form.
fn form_size(c: u32) -> Option<usize>
    ensures { (size_of (form_of (pos c)) ≡ form_size result) × FewBytes result }
{
    match c {
        13 | 38 => Some(5),
        60 | 62 => Some(4),
        9 | 10 => Some(1),
        32..=127 => Some(1),
        _ => None,
    }
}

fn chars_size(chars: &[i64]) -> Result<usize, Reason>
    requires { length chars.now ≤ most_elements }
    ensures { size_as result ≡ size_with 9 (forms chars.now) }
{
    let mut size = 9;
    for &z in chars {
        size += form_size(code_of(z)).ok_or(Reason::NoCharacter)?;
    }
    Ok(size)
}

fn integers_size(integers: &[i64]) -> usize
    requires { length integers.now ≤ most_elements }
    ensures { result ≡ 8 + length (joined (λ z. 32 ∷ shortest z) integers.now) }
{
    let mut size = 8;
    for &z in integers {
        size += 1 + decimals::shortest_length(z);
    }
    size
}

// What a cell takes when it is written: its length, or 14, 16.
pub fn size_text(column: Column, shown: Option<usize>, scratch: &[i64]) -> Result<usize, Reason>
    requires { ShownWithin scratch.now shown × ShownUpTo most_elements shown }
    ensures { size_as result ≡ size_of (write_text column (shown_as scratch.now shown)) }
{
    let Some(count) = shown else {
        return Ok(5);
    };
    if count == 0 {
        return Err(Reason::Empty);
    }
    let elements = &scratch[..count];
    match elements_of(column.kind) {
        Elements::Truths => Ok(2 * count + 8),
        Elements::Bits => Ok(count + 9),
        Elements::Text => chars_size(elements),
        Elements::Whole(_) => Ok(integers_size(elements)),
    }
}

// ---- a cell is written

// "Char writes `&amp;`, `&lt;`, `&gt;` and `&#xD;`"; a code with no form is left out.
fn put_escaped(out: &mut [u8], at: usize, c: u32) -> usize
    requires { at + length (form_bytes (form_of (pos c))) ≤ length out.old }
    ensures { Wrote out.old at (form_bytes (form_of (pos c))) out.new result }
{
    match c {
        38 => put_bytes(out, at, b"&amp;"),
        60 => put_bytes(out, at, b"&lt;"),
        62 => put_bytes(out, at, b"&gt;"),
        13 => put_bytes(out, at, b"&#xD;"),
        _ => {
            if !is_text(c) {
                return at;
            }
            out[at] = c as u8;
            at + 1
        }
    }
}

// Most chars are written as themselves, which takes fewer tests than `put_escaped` does.
fn put_char(out: &mut [u8], at: usize, c: u32) -> usize
    requires { at + length (form_bytes (form_of (pos c))) ≤ length out.old }
    ensures { Wrote out.old at (form_bytes (form_of (pos c))) out.new result }
{
    if !is_plain(c) {
        return put_escaped(out, at, c);
    }
    if c == 62 {
        return put_escaped(out, at, c);
    }
    out[at] = c as u8;
    at + 1
}

fn put_chars(chars: &[i64], out: &mut [u8], at: usize) -> usize
    requires { at + length (element_bytes Text chars.now) ≤ length out.old }
    ensures { Wrote out.old at (element_bytes Text chars.now) out.new result }
{
    let mut i = at;
    for &z in chars {
        i = put_char(out, i, code_of(z));
    }
    i
}

fn bit_byte(z: i64) -> u8
    ensures { result ≡ bit_text z }
{
    if z == 1 { b'1' } else { b'0' }
}

fn put_bits(bits: &[i64], out: &mut [u8], at: usize) -> usize
    requires { at + length (element_bytes Bits bits.now) ≤ length out.old }
    ensures { Wrote out.old at (element_bytes Bits bits.now) out.new result }
{
    let mut i = at;
    for &z in bits {
        out[i] = bit_byte(z);
        i += 1;
    }
    i
}

// How an element is written as a word.
trait Word {
    ghost text: { ℤ → List ℕ };

    // The word, at a place with room for it; and the place after it.
    fn put(out: &mut [u8], at: usize, z: i64) -> usize
        requires { at + length (text z) ≤ length out.old }
        ensures { Wrote out.old at (text z) out.new result };
}

// "Booleans are `T`, `F`, `?`"
struct Truth;

impl Word for Truth {
    ghost text = { truth_text };

    fn put(out: &mut [u8], at: usize, z: i64) -> usize {
        out[at] = table::truth_byte(z);
        at + 1
    }
}

// "integers shortest decimal"
struct Decimal;

impl Word for Decimal {
    ghost text = { shortest };

    fn put(out: &mut [u8], at: usize, z: i64) -> usize {
        decimals::write_shortest(out, at, z)
    }
}

// Each element but the first, behind a space.
fn more_words<W: Word>(elements: &[i64], out: &mut [u8], at: usize) -> usize
    requires { at + length (joined (λ z. 32 ∷ W.text z) elements.now) ≤ length out.old }
    ensures { Wrote out.old at (joined (λ z. 32 ∷ W.text z) elements.now) out.new result }
{
    let mut i = at;
    for &z in elements {
        out[i] = b' ';
        i = W::put(out, i + 1, z);
    }
    i
}

fn put_words<W: Word>(elements: &[i64], out: &mut [u8], at: usize) -> usize
    requires { at + length (spaced (map W.text elements.now)) ≤ length out.old }
    ensures { Wrote out.old at (spaced (map W.text elements.now)) out.new result }
{
    let Some((&first, rest)) = elements.split_first() else {
        return at;
    };
    let next = W::put(out, at, first);
    more_words::<W>(rest, out, next)
}

// The text of a cell's elements.
fn put_elements(kind: Kind, elements: &[i64], out: &mut [u8], at: usize) -> usize
    requires { at + length (element_bytes (shape kind) elements.now) ≤ length out.old }
    ensures { Wrote out.old at (element_bytes (shape kind) elements.now) out.new result }
{
    match elements_of(kind) {
        Elements::Truths => put_words::<Truth>(elements, out, at),
        Elements::Bits => put_bits(elements, out, at),
        Elements::Text => put_chars(elements, out, at),
        Elements::Whole(_) => put_words::<Decimal>(elements, out, at),
    }
}

// A cell, at a place with room for it: "Null is `<TD/>`."
pub fn write_text(
    column: Column,
    shown: Option<usize>,
    scratch: &[i64],
    out: &mut [u8],
    at: usize,
) -> usize
    requires { ShownWithin scratch.now shown × (at + length (text_bytes column (shown_as scratch.now shown)) ≤ length out.old) }
    ensures { Wrote out.old at (text_bytes column (shown_as scratch.now shown)) out.new result }
{
    let Some(count) = shown else {
        return put_bytes(out, at, b"<TD/>");
    };
    let from = put_bytes(out, at, b"<TD>");
    let next = put_elements(column.kind, &scratch[..count], out, from);
    put_bytes(out, next, b"</TD>")
}
