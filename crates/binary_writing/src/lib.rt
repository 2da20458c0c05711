// A cell of BINARY and BINARY2: measured, and written from the scratch.
#![tactic(auto)]

ghost use Rattle.std.specs.Prelude.{map, ◌≡◌, ◌*◌, ◌+◌, ◌-◌, ◌^◌, ◌<◌, ◌≤◌, length, replicate};
ghost use Rattle.number.specs.Clauses.{size};
ghost use Rattle.number.specs.Number.{of_digits, pattern};
ghost use Rattle.table.specs.Cell.{bound, most_elements, null_element, room_in, truth_byte};
ghost use Rattle.table.specs.Clauses.{ShownUpTo, ShownWithin, form_bytes, shown_as, size_as, size_of};
ghost use Rattle.table.specs.Shape.{shape};
ghost use Rattle.table.specs.Wrote.{Wrote};
ghost use Rattle.binary.specs.Binary.{bit_bytes, bit_of, bytes_of, can_be_empty, count_bytes, elements_bytes, groups, null_form, number, pack, write_binary, write_binary2, zeros};
ghost use Rattle.binary.specs.Clauses.{filled_bytes};
ghost use Rattle.binary_writing.specs.Clauses.{elements_size, room_size};

use number::{Elements, Integer, elements_of};
use table::{Column, Kind, Len, Reason, is_char};

// ---- a cell is measured

// "fixed char filled up with NUL; variable char with the shown length"
fn elements_size(column: Column, count: usize) -> usize
    requires { (bound column.len ≤ most_elements) × (count ≤ bound column.len) }
    ensures { result ≡ elements_size column count }
{
    match column.len {
        Len::Fixed(n) => {
            if is_char(column.kind) {
                n
            } else {
                binary::content_bytes(column.kind, count)
            }
        }
        Len::Bounded(_) | Len::Free => 4 + binary::content_bytes(column.kind, count),
    }
}

// The bytes of a cell with room for so many elements, as a null has them for none.
pub fn room_size(column: Column, count: usize) -> usize
    requires { (bound column.len ≤ most_elements) × (count ≤ bound column.len) }
    ensures { result ≡ room_size column count }
{
    match column.len {
        Len::Fixed(n) => binary::content_bytes(column.kind, n),
        Len::Bounded(_) | Len::Free => 4 + binary::content_bytes(column.kind, count),
    }
}

pub fn size_binary2(column: Column, shown: Option<usize>, scratch: &[i64]) -> usize
    requires { (bound column.len ≤ most_elements) × ShownUpTo (bound column.len) shown × ShownWithin scratch.now shown }
    ensures { result ≡ length (write_binary2 column (shown_as scratch.now shown)) }
{
    match shown {
        None => room_size(column, 0),
        Some(count) => elements_size(column, count),
    }
}

// "count 0 for bounded and free, NULs for fixed char; else 15"
fn can_be_empty(kind: Kind, len: Len) -> bool
    ensures { result ≡ can_be_empty (shape kind) len }
{
    match len {
        Len::Fixed(_) => is_char(kind),
        Len::Bounded(_) | Len::Free => true,
    }
}

// "Null in BINARY: the declared null, `?` for a scalar boolean, count 0 for bounded and free, NULs for fixed char; else 15."
pub fn null_size(column: Column) -> Result<usize, Reason>
    requires { bound column.len ≤ most_elements }
    ensures { size_as result ≡ size_of (null_form column (null_element column)) }
{
    match table::null_element(column) {
        Some(_) => Ok(elements_size(column, 1)),
        None if can_be_empty(column.kind, column.len) => Ok(room_size(column, 0)),
        None => Err(Reason::NullHasNoForm),
    }
}

pub fn size_binary(column: Column, shown: Option<usize>, scratch: &[i64]) -> Result<usize, Reason>
    requires { (bound column.len ≤ most_elements) × ShownUpTo (bound column.len) shown × ShownWithin scratch.now shown }
    ensures { size_as result ≡ size_of (write_binary column (shown_as scratch.now shown)) }
{
    match shown {
        None => null_size(column),
        Some(0) => Err(Reason::Empty),
        Some(count) => Ok(elements_size(column, count)),
    }
}

// ---- a cell is written

pub fn put_zeros(n: usize, out: &mut [u8], at: usize) -> usize
    requires { at + n ≤ length out.old }
    ensures { Wrote out.old at (replicate n 0) out.new result }
{
    let end = at + n;
    out[at..end].fill(0);
    end
}

pub fn put_count(len: Len, count: usize, out: &mut [u8], at: usize) -> usize
    requires { (at + length (count_bytes len count) ≤ length out.old) × (count ≤ most_elements) }
    ensures { Wrote out.old at (count_bytes len count) out.new result }
{
    match len {
        Len::Fixed(_) => at,
        Len::Bounded(_) | Len::Free => integers::put_four(out, at, count as u32),
    }
}

fn put_truths(truths: &[i64], out: &mut [u8], at: usize) -> usize
    requires { at + length truths.now ≤ length out.old }
    ensures { Wrote out.old at (map truth_byte truths.now) out.new result }
{
    let mut o = at;
    for &z in truths {
        out[o] = table::truth_byte(z);
        o += 1;
    }
    o
}

// One loop for every width; characters are integers of a byte.
fn put_integers(kind: Integer, integers: &[i64], out: &mut [u8], at: usize) -> usize
    requires { at + length integers.now * size kind ≤ length out.old }
    ensures { Wrote out.old at (groups (size kind) (map (pattern 8) integers.now)) out.new result }
{
    let mut o = at;
    for &z in integers {
        o = integers::write_integer(out, o, kind, z);
    }
    o
}

fn bit_of(z: i64) -> u8
    ensures { (result ≡ bit_of z) × (result < 2) }
{
    if z == 1 { 1 } else { 0 }
}

// At most eight bits, high in a byte.
fn packed_byte(bits: &[i64]) -> u8
    requires { length bits.now ≤ 8 }
    ensures { result ≡ of_digits 2 0 (map bit_of bits.now) * 2 ^ (8 - length bits.now) }
{
    let mut b: u64 = 0;
    for &z in bits {
        b = b * 2 + (bit_of(z) as u64);
    }
    (b << (8 - bits.len())) as u8
}

fn put_bits(bits: &[i64], out: &mut [u8], at: usize) -> usize
    requires { at + bit_bytes (length bits.now) ≤ length out.old }
    ensures { Wrote out.old at (pack (map bit_of bits.now)) out.new result }
{
    let (full, left) = bits.as_chunks::<8>();
    let mut o = at;
    for eight in full {
        out[o] = packed_byte(eight);
        o += 1;
    }
    if left.is_empty() {
        return o;
    }
    out[o] = packed_byte(left);
    o + 1
}

// The elements, and NULs after fewer characters than a fixed column has.
fn put_content(kind: Kind, room: usize, elements: &[i64], out: &mut [u8], at: usize) -> usize
    requires { (length elements.now ≤ room) × (at + filled_bytes (shape kind) room (length elements.now) ≤ length out.old) }
    ensures { Wrote out.old at (bytes_of (shape kind) room (map (number (shape kind)) elements.now)) out.new result }
{
    match elements_of(kind) {
        Elements::Truths => put_truths(elements, out, at),
        Elements::Bits => put_bits(elements, out, at),
        Elements::Whole(integer) => put_integers(integer, elements, out, at),
        Elements::Text => {
            let next = put_integers(Integer::UnsignedByte, elements, out, at);
            put_zeros(room - elements.len(), out, next)
        }
    }
}

pub fn room_in(len: Len, count: usize) -> usize
    ensures { result ≡ room_in len count }
{
    match len {
        Len::Fixed(n) => n,
        Len::Bounded(_) | Len::Free => count,
    }
}

fn put_elements(column: Column, elements: &[i64], out: &mut [u8], at: usize) -> usize
    requires len_bound { (bound column.len ≤ most_elements) × (length elements.now ≤ bound column.len) }
    requires scratch_in_bounds { at + length (elements_bytes column elements.now) ≤ length out.old }
    ensures { Wrote out.old at (elements_bytes column elements.now) out.new result }
{
    let count = elements.len();
    let next = put_count(column.len, count, out, at);
    put_content(column.kind, room_in(column.len, count), elements, out, next)
}

// "Null in BINARY2: flag, zero bytes, count 0."
pub fn put_null(column: Column, out: &mut [u8], at: usize) -> usize
    requires { (bound column.len ≤ most_elements) × (at + length (zeros column) ≤ length out.old) }
    ensures { Wrote out.old at (zeros column) out.new result }
{
    let size = binary::content_bytes(column.kind, room_in(column.len, 0));
    let next = put_count(column.len, 0, out, at);
    put_zeros(size, out, next)
}

pub fn write_binary2(
    column: Column,
    shown: Option<usize>,
    scratch: &[i64],
    out: &mut [u8],
    at: usize,
) -> usize
    requires len_bound { (bound column.len ≤ most_elements) × ShownUpTo (bound column.len) shown × ShownWithin scratch.now shown }
    requires scratch_in_bounds { at + length (write_binary2 column (shown_as scratch.now shown)) ≤ length out.old }
    ensures { Wrote out.old at (write_binary2 column (shown_as scratch.now shown)) out.new result }
{
    match shown {
        None => put_null(column, out, at),
        Some(count) => put_elements(column, &scratch[..count], out, at),
    }
}

// A null that BINARY has a form for; nothing where it has none. A declared null is a scalar's: no count stands before it.
pub fn put_binary_null(column: Column, out: &mut [u8], at: usize) -> usize
    requires { (bound column.len ≤ most_elements) × (at + length (form_bytes (null_form column (null_element column))) ≤ length out.old) }
    ensures { Wrote out.old at (form_bytes (null_form column (null_element column))) out.new result }
{
    match table::null_element(column) {
        Some(z) => put_content(column.kind, 1, &[z], out, at),
        None if can_be_empty(column.kind, column.len) => put_null(column, out, at),
        None => at,
    }
}

pub fn write_binary(
    column: Column,
    shown: Option<usize>,
    scratch: &[i64],
    out: &mut [u8],
    at: usize,
) -> usize
    requires len_bound { (bound column.len ≤ most_elements) × ShownUpTo (bound column.len) shown × ShownWithin scratch.now shown }
    requires scratch_in_bounds { at + length (form_bytes (write_binary column (shown_as scratch.now shown))) ≤ length out.old }
    ensures { Wrote out.old at (form_bytes (write_binary column (shown_as scratch.now shown))) out.new result }
{
    match shown {
        None => put_binary_null(column, out, at),
        Some(0) => at,
        Some(count) => put_elements(column, &scratch[..count], out, at),
    }
}
