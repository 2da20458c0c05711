// The contents of cells of BINARY and BINARY2 as the text of a cell of TABLEDATA, in a row's buffer.
#![tactic(auto)]

ghost use Rattle.std.specs.Prelude.{◌*◌, ◌+◌, ◌-◌, ◌<◌, ◌≤◌, drop, length, replicate, take, false, [], ◌++◌, ◌∷◌, ◌≡◌};
ghost use Rattle.binary.specs.Binary.{bit_bytes, content_bytes};
ghost use Rattle.content_showing.specs.Showing.{TruthsPut, bit_letters, byte_word, filled, first_part, is_itself, middle_part, reference, sign, truth_shown};
ghost use Rattle.decimals.specs.Clauses.{numerals};
ghost use Rattle.eights.specs.Marks.{Marks, run};
ghost use Rattle.moving.specs.Contents.{AsText, InBinary, MovesContent};
ghost use Rattle.moving.specs.Puts.{Puts};
ghost use Rattle.number.specs.Clauses.{is_signed, size, width_of};
ghost use Rattle.number.specs.Number.{digits, shortest, to_digits};
ghost use Rattle.table.specs.Cell.{most_elements, truth_byte};
ghost use Rattle.table.specs.Shape.{Bits, Text, Truths, W1, Whole, shape};

use content_passing::{is_padded, truth_letter};
use eights::{copy_wide, eight_digits, first_of};
use integers::{eight_bytes, put_eight, put_four, read_integer};
use moving::Content;
use number::{Elements, Integer, elements_of, integer_bytes};
use table::Kind;

// ---- "integers shortest decimal, no `+`"

// A number below 100,000,000, none of its eight digits before the first that counts; eight bytes are written.
fn put_short(v: u64, row: &mut [u8], o: usize) -> usize
    requires { (v < 100000000) × (o + 8 ≤ length row.old) }
    ensures { Puts row.old o (digits 20 v) row.new result }
{
    let t = eight_digits(v);
    let zeros = u64::leading_zeros(t | 1) / 8;
    put_eight(row, o, (t + 0x3030303030303030) << (8 * zeros));
    o + (8 - zeros) as usize
}

// A number below 100: its one or two digits. A zero before one digit is stored and stored over, so that nothing is branched on.
fn put_pair(v: u64, row: &mut [u8], o: usize) -> usize
    requires { (v < 100) × (o + 2 ≤ length row.old) }
    ensures { Puts row.old o (digits 20 v) row.new result }
{
    let two = (10 <= v) as usize;
    row[o] = (v / 10 + 48) as u8;
    row[o + two] = (v % 10 + 48) as u8;
    o + two + 1
}

// The digits before eight or sixteen others, which are mostly few.
fn put_first(v: u64, row: &mut [u8], o: usize) -> usize
    requires { (v < 100000000) × (o + 8 ≤ length row.old) }
    ensures { Puts row.old o (digits 20 v) row.new result }
{
    if v < 100 {
        return put_pair(v, row, o);
    }
    put_short(v, row, o)
}

// All eight digits.
fn put_eight_digits(v: u64, row: &mut [u8], o: usize) -> usize
    requires { (v < 100000000) × (o + 8 ≤ length row.old) }
    ensures { Puts row.old o (numerals 8 v) row.new result }
{
    put_eight(row, o, eight_digits(v) + 0x3030303030303030)
}

// The digits of a long number above its last eight or sixteen.
fn first_part(v: u64) -> u64
    ensures { result ≡ first_part v }
{
    if v < 10000000000000000 {
        return v / 100000000;
    }
    v / 10000000000000000
}

fn put_middle(v: u64, row: &mut [u8], o: usize) -> usize
    requires { o + 8 ≤ length row.old }
    ensures { Puts row.old o (middle_part v) row.new result }
{
    if v < 10000000000000000 {
        return o;
    }
    put_eight_digits(v / 100000000 % 100000000, row, o)
}

// Between two stores of eight bytes stands a branch: the compiler makes one instruction of the first such store in a run of code, and of that alone.
fn put_long(v: u64, row: &mut [u8], o: usize) -> usize
    requires { (100000000 ≤ v) × (o + 24 ≤ length row.old) }
    ensures { Puts row.old o (digits 20 v) row.new result }
{
    let next = put_first(first_part(v), row, o);
    let after = put_middle(v, row, next);
    put_eight_digits(v % 100000000, row, after)
}

fn put_number(v: u64, row: &mut [u8], o: usize) -> usize
    requires { o + 24 ≤ length row.old }
    ensures { Puts row.old o (digits 20 v) row.new result }
{
    if v < 100000000 {
        return put_short(v, row, o);
    }
    put_long(v, row, o)
}

// The sign is stored whether it counts or not, so that nothing is branched on.
fn put_sign(z: i64, row: &mut [u8], o: usize) -> usize
    requires { o + 1 ≤ length row.old }
    ensures { Puts row.old o (sign z) row.new result }
{
    row[o] = b'-';
    if 0 <= z { o } else { o + 1 }
}

pub fn show_integer(z: i64, row: &mut [u8], o: usize) -> usize
    requires { o + 32 ≤ length row.old }
    ensures { Puts row.old o (shortest z) row.new result }
{
    let next = put_sign(z, row, o);
    put_number(z.unsigned_abs(), row, next)
}

// ---- "Booleans are `T`, `F`, `?`"

pub fn show_truth(z: i64, row: &mut [u8], o: usize) -> usize
    requires { o + 1 ≤ length row.old }
    ensures { Puts row.old o (truth_byte z ∷ []) row.new result }
{
    row[o] = table::truth_byte(z);
    o + 1
}

// ---- characters

// The high bit of each of eight bytes that is not written as itself.
fn no_text(x: u64) -> u64
    ensures { Marks is_itself x result }
{
    let y = x & 0x7f7f7f7f7f7f7f7f;
    let high = y + 0x6060606060606060;
    let no_amp = (y ^ 0x2626262626262626) + 0x7f7f7f7f7f7f7f7f;
    let no_lt = (y ^ 0x3c3c3c3c3c3c3c3c) + 0x7f7f7f7f7f7f7f7f;
    let no_gt = (y ^ 0x3e3e3e3e3e3e3e3e) + 0x7f7f7f7f7f7f7f7f;
    (((high & no_amp & no_lt & no_gt) ^ 0x8080808080808080) | x) & 0x8080808080808080
}

// How many of the next eight bytes are written as themselves, up to the first that is not.
pub fn text_ahead(s: &[u8], at: usize) -> usize
    requires { at + 8 ≤ length s.now }
    ensures { result ≡ run is_itself (take 8 (drop at s.now)) }
{
    first_of(no_text(eight_bytes(s, at)))
}

// How many of the next n bytes are, eight at a time.
fn text_run(s: &[u8], at: usize, n: usize) -> usize
    requires { at + n + 8 ≤ length s.now }
    ensures { result ≤ run is_itself (take n (drop at s.now)) }
{
    let mut k: usize = 0;
    while k < n {
        let ahead = text_ahead(s, at + k);
        if ahead < 8 {
            return n.min(k + ahead);
        }
        k += 8;
    }
    n
}

// "Char writes `&amp;`, `&lt;`, `&gt;` and `&#xD;`"; 9 and 10 are themselves, and nothing is put of any other. No test is a branch.
fn reference_word(b: u8) -> u64
    ensures { to_digits 256 8 result ≡ filled (reference b) }
{
    ((b == 38) as u64) * 0x26616d703b000000
        + ((b == 60) as u64) * 0x266c743b00000000
        + ((b == 62) as u64) * 0x2667743b00000000
        + ((b == 13) as u64) * 0x262378443b000000
        + ((b == 9) as u64) * 0x0900000000000000
        + ((b == 10) as u64) * 0x0a00000000000000
}

fn reference_size(b: u8) -> usize
    ensures { (result ≡ length (reference b)) × (result ≤ 8) }
{
    ((b == 38) as usize) * 5
        + ((b == 60) as usize) * 4
        + ((b == 62) as usize) * 4
        + ((b == 13) as usize) * 5
        + ((b == 9) as usize)
        + ((b == 10) as usize)
}

pub fn put_reference(b: u8, row: &mut [u8], o: usize) -> usize
    requires { o + 8 ≤ length row.old }
    ensures { Puts row.old o (reference b) row.new result }
{
    put_eight(row, o, reference_word(b));
    o + reference_size(b)
}

fn show_text(n: usize, s: &[u8], at: usize, row: &mut [u8], o: usize) -> Option<Content>
    requires { (at + n + 8 ≤ length s.now) × (o ≤ length row.old) }
    ensures { MovesContent (InBinary Text n s.now at) (AsText Text) row.old o row.new result }
{
    let mut e = o;
    let mut k: usize = 0;
    loop {
        let run = text_run(s, at + k, n - k);
        if row.len() - e < run + 16 {
            return None;
        }
        e = copy_wide(s, at + k, run, row, e);
        k += run;
        if k == n {
            return Some(Content {
                count: k,
                next: at + n,
                end: e,
            });
        }
        let b = s[at + k];
        if b == 0 {
            return Some(Content {
                count: k,
                next: at + n,
                end: e,
            });
        }
        let next = put_reference(b, row, e);
        if next == e {
            return None;
        }
        e = next;
        k += 1;
    }
}

// ---- integers, "one space between"

// An integer and a space behind it.
pub fn put_word(z: i64, row: &mut [u8], o: usize) -> usize
    requires { o + 33 ≤ length row.old }
    ensures { Puts row.old o (shortest z ++ (32 ∷ [])) row.new result }
{
    let next = show_integer(z, row, o);
    row[next] = 32;
    next + 1
}

// The space behind the last is left out.
fn show_integers(
    integer: Integer,
    n: usize,
    s: &[u8],
    at: usize,
    row: &mut [u8],
    o: usize,
) -> Option<Content>
    requires { (0 < n) × (at + n * size integer ≤ length s.now) × (o ≤ length row.old) }
    ensures { MovesContent (InBinary (Whole (is_signed integer) (width_of integer)) n s.now at) (AsText (Whole (is_signed integer) (width_of integer))) row.old o row.new result }
{
    let width = integer_bytes(integer);
    let mut from = at;
    let mut e = o;
    for _ in 0..n {
        if row.len() - e < 40 {
            return None;
        }
        e = put_word(read_integer(s, from, integer), row, e);
        from += width;
    }
    Some(Content {
        count: n,
        next: from,
        end: e - 1,
    })
}

// The digits of a byte and a space, as four bytes; none stands before the first digit.
fn byte_word(b: u8) -> u32
    ensures { to_digits 256 4 result ≡ byte_word b ++ replicate (4 - length (byte_word b)) 0 }
{
    let v = b as u32;
    let more = ((10 <= b) as u32) + ((100 <= b) as u32);
    let digits = v / 100 * 16777216 + v / 10 % 10 * 65536 + v % 10 * 256 + 0x30303020;
    digits << (16 - 8 * more)
}

fn byte_size(b: u8) -> usize
    ensures { (result ≡ length (byte_word b)) × (result ≤ 4) }
{
    2 + ((10 <= b) as usize) + ((100 <= b) as usize)
}

fn put_byte(b: u8, row: &mut [u8], o: usize) -> usize
    requires { o + 4 ≤ length row.old }
    ensures { Puts row.old o (byte_word b) row.new result × (result ≤ o + 4) }
{
    put_four(row, o, byte_word(b));
    o + byte_size(b)
}

fn show_bytes(n: usize, s: &[u8], at: usize, row: &mut [u8], o: usize) -> Option<Content>
    requires { (0 < n) × (n ≤ most_elements) × (at + n ≤ length s.now) × (o ≤ length row.old) }
    ensures { MovesContent (InBinary (Whole false W1) n s.now at) (AsText (Whole false W1)) row.old o row.new result }
{
    if row.len() - o < 4 * n {
        return None;
    }
    let mut e = o;
    for k in 0..n {
        e = put_byte(s[at + k], row, e);
    }
    Some(Content {
        count: n,
        next: at + n,
        end: e - 1,
    })
}

fn show_whole(
    integer: Integer,
    n: usize,
    s: &[u8],
    at: usize,
    row: &mut [u8],
    o: usize,
) -> Option<Content>
    requires { (0 < n) × (n ≤ most_elements) × (at + n * size integer ≤ length s.now) × (o ≤ length row.old) }
    ensures { MovesContent (InBinary (Whole (is_signed integer) (width_of integer)) n s.now at) (AsText (Whole (is_signed integer) (width_of integer))) row.old o row.new result }
{
    match integer {
        Integer::UnsignedByte => show_bytes(n, s, at, row, o),
        Integer::Short => show_integers(Integer::Short, n, s, at, row, o),
        Integer::Int => show_integers(Integer::Int, n, s, at, row, o),
        Integer::Long => show_integers(Integer::Long, n, s, at, row, o),
    }
}

// ---- bits, "none between bits"

// A character for each bit of a byte, the first highest.
fn bit_word(b: u8) -> u64
    ensures { to_digits 256 8 result ≡ bit_letters (b ∷ []) }
{
    let v = b as u64;
    let x = (v | (v << 28)) & 0x0000000f0000000f;
    let y = (x | (x << 14)) & 0x0003000300030003;
    let z = (y | (y << 7)) & 0x0101010101010101;
    z + 0x3030303030303030
}

fn put_bits(size: usize, s: &[u8], at: usize, row: &mut [u8], o: usize)
    requires { (at + size ≤ length s.now) × (o + 8 * size ≤ length row.old) }
    ensures { Puts row.old o (bit_letters (take size (drop at s.now))) row.new (o + 8 * size) }
{
    for k in 0..size {
        put_eight(row, o + 8 * k, bit_word(s[at + k]));
    }
}

fn show_bits(n: usize, s: &[u8], at: usize, row: &mut [u8], o: usize) -> Option<Content>
    requires { (0 < n) × (n ≤ most_elements) × (at + bit_bytes n ≤ length s.now) × (o ≤ length row.old) }
    ensures { MovesContent (InBinary Bits n s.now at) (AsText Bits) row.old o row.new result }
{
    let size = (n + 7) / 8;
    if row.len() - o < 8 * size {
        return None;
    }
    if !is_padded(n, s, at) {
        return None;
    }
    put_bits(size, s, at, row, o);
    Some(Content {
        count: n,
        next: at + size,
        end: o + n,
    })
}

// ---- booleans

// A letter and a space behind it.
fn put_truth(b: u8, row: &mut [u8], o: usize) -> u8
    requires { o + 2 ≤ length row.old }
    ensures { (result ≡ truth_shown b) × Puts row.old o (truth_shown b ∷ 32 ∷ []) row.new (o + 2) }
{
    let letter = truth_letter(b);
    row[o] = letter;
    row[o + 1] = 32;
    letter
}

// 0 where each byte is a boolean's.
fn put_truths(n: usize, s: &[u8], at: usize, row: &mut [u8], o: usize) -> u8
    requires { (at + n ≤ length s.now) × (o + 2 * n ≤ length row.old) }
    ensures { TruthsPut (take n (drop at s.now)) row.old o row.new (o + 2 * n) result }
{
    let mut bad: u8 = 0;
    for k in 0..n {
        let letter = put_truth(s[at + k], row, o + 2 * k);
        bad = bad | ((letter == 0) as u8);
    }
    bad
}

// The space behind the last is left out.
fn show_truths(n: usize, s: &[u8], at: usize, row: &mut [u8], o: usize) -> Option<Content>
    requires { (0 < n) × (n ≤ most_elements) × (at + n ≤ length s.now) × (o ≤ length row.old) }
    ensures { MovesContent (InBinary Truths n s.now at) (AsText Truths) row.old o row.new result }
{
    if row.len() - o < 2 * n {
        return None;
    }
    if put_truths(n, s, at, row, o) != 0 {
        return None;
    }
    Some(Content {
        count: n,
        next: at + n,
        end: o + 2 * n - 1,
    })
}

// ---- a content

pub fn show_content(
    kind: Kind,
    n: usize,
    s: &[u8],
    at: usize,
    row: &mut [u8],
    o: usize,
) -> Option<Content>
    requires { (n ≤ most_elements) × (at + content_bytes (shape kind) n + 8 ≤ length s.now) × (o ≤ length row.old) }
    ensures { MovesContent (InBinary (shape kind) n s.now at) (AsText (shape kind)) row.old o row.new result }
{
    if n == 0 {
        return Some(Content {
            count: 0,
            next: at,
            end: o,
        });
    }
    match elements_of(kind) {
        Elements::Truths => show_truths(n, s, at, row, o),
        Elements::Bits => show_bits(n, s, at, row, o),
        Elements::Text => show_text(n, s, at, row, o),
        Elements::Whole(integer) => show_whole(integer, n, s, at, row, o),
    }
}
