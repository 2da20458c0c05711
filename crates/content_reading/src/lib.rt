// The elements of a cell of TABLEDATA, moved into a row's buffer as a cell of BINARY or BINARY2 has them: what is plain at once, everything else is
// left to the careful way.
#![tactic(auto)]

ghost use Rattle.std.specs.Prelude.{Bool, ℕ, drop, false, take, ◌≡◌, ◌+◌, ◌<◌, ◌≤◌, pos, length};
ghost use Rattle.content_reading.specs.Letters.{LetterIs, truth_number};
ghost use Rattle.content_reading.specs.Passing.{PassTo};
ghost use Rattle.eights.specs.Marks.{Marks, run};
ghost use Rattle.integer_reading.specs.Figures.{BitByte, ReadIn, is_bit};
ghost use Rattle.moving.specs.Contents.{AsBinary, FindsOne, InText, MovesContent};
ghost use Rattle.number.specs.Clauses.{is_signed, width_of};
ghost use Rattle.table.specs.Cell.{truth_byte};
ghost use Rattle.table.specs.Shape.{Bits, Text, Truths, W1, Whole, shape};
ghost use Rattle.tabledata.specs.Clauses.{is_plain};

use eights::{copy_wide, first_of};
// Integers stand in a crate of their own; who reads a text's content still finds them here.
pub use integer_reading::text_integer;
use integer_reading::{array_integer, leading_figures, three_at};
use integers::{eight_bytes, four_bytes, write_integer};
use moving::{Content, One};
use number::{Elements, Integer, elements_of};
use table::Kind;

// ---- runs of bytes that pass a test

// A test of bytes, eight at once.
pub trait Test {
    ghost passes: { ℕ → Bool };

    // How many of the next eight bytes pass, up to the first that does not.
    fn ahead(s: &[u8], at: usize) -> usize
        requires { at + 8 ≤ length s.now }
        ensures { result ≡ run passes (take 8 (drop at s.now)) };
}

// The end of the run of bytes that pass, or a place in the last eight bytes. The loop goes on by eight and not by what was found, so that a turn need
// not wait for the one before.
pub fn run_end<T: Test>(s: &[u8], from: usize) -> usize
    requires { from ≤ length s.now }
    ensures { PassTo T.passes s.now from result }
{
    let mut at = from;
    while 8 <= s.len() - at {
        let n = T::ahead(s, at);
        if n < 8 {
            return at + n;
        }
        at += 8;
    }
    at
}

// ---- one boolean by its value

// 1 for true, 0 for false, 2 for unknown, 3 for none: sums of tests, and no branch.
fn truth_number(c: u8) -> u8
    ensures { result ≡ truth_number c }
{
    let lower = c | 32;
    let truth = ((lower == b't') as u8) + ((c == b'1') as u8);
    let lie = ((lower == b'f') as u8) + ((c == b'0') as u8);
    3 - truth * 2 - lie * 3 - ((c == b'?') as u8)
}

// One of `T t 1 F f 0 ?`; the byte after it is the caller's to look at.
pub fn text_truth(s: &[u8], at: usize) -> Option<One>
    requires { at ≤ length s.now }
    ensures { FindsOne (InText Truths s.now at) result }
{
    if s.len() <= at {
        return None;
    }
    let z = truth_number(s[at]);
    if z == 3 {
        return None;
    }
    Some(One {
        value: z as i64,
        next: at + 1,
    })
}

// ---- characters. The load that is tested must not also be what is stored: then neither is one instruction. So a run is found first, then copied.

// The high bit of each byte that does not stand for itself: 32 to 127 do, but for `&` and `<`.
fn no_plain(x: u64) -> u64
    ensures { Marks is_plain x result }
{
    let y = x & 0x7f7f7f7f7f7f7f7f;
    let fine = (y + 0x6060606060606060)
        & ((y ^ 0x2626262626262626) + 0x7f7f7f7f7f7f7f7f)
        & ((y ^ 0x3c3c3c3c3c3c3c3c) + 0x7f7f7f7f7f7f7f7f);
    ((fine ^ 0x8080808080808080) | x) & 0x8080808080808080
}

// The bytes that stand for themselves.
struct Plain;

impl Test for Plain {
    ghost passes = { is_plain };

    fn ahead(s: &[u8], at: usize) -> usize {
        first_of(no_plain(eight_bytes(s, at)))
    }
}

// The end of a run of bytes that stand for themselves. A call, so that its loop has the registers to itself.
#[inline(never)]
fn plain_end(s: &[u8], from: usize) -> usize
    requires { from ≤ length s.now }
    ensures { PassTo is_plain s.now from result }
{
    run_end::<Plain>(s, from)
}

// A character and the place after it.
#[derive(Clone, Copy)]
pub struct Letter {
    pub byte: u8,
    pub next: usize,
}

// A line's end or a tab, which stand for themselves too.
fn line_end(s: &[u8], at: usize) -> Option<Letter>
    requires { at + 1 ≤ length s.now }
    ensures { LetterIs s.now at result }
{
    let c = s[at];
    if c == 10 {
        return Some(Letter {
            byte: 10,
            next: at + 1,
        });
    }
    if c == 9 {
        return Some(Letter {
            byte: 9,
            next: at + 1,
        });
    }
    None
}

// The references that are written, and what else stands for itself.
pub fn letter_at(s: &[u8], at: usize) -> Option<Letter>
    requires { at + 8 ≤ length s.now }
    ensures { LetterIs s.now at result }
{
    let x = four_bytes(s, at);
    if x == 0x266c743b {
        return Some(Letter {
            byte: b'<',
            next: at + 4,
        });
    }
    if x == 0x2667743b {
        return Some(Letter {
            byte: b'>',
            next: at + 4,
        });
    }
    if x != 0x26616d70 {
        return line_end(s, at);
    }
    if s[at + 4] != b';' {
        return None;
    }
    Some(Letter {
        byte: b'&',
        next: at + 5,
    })
}

// Runs of bytes that stand for themselves, and what stands between them, up to the `<` of the end tag.
fn read_text(s: &[u8], from: usize, row: &mut [u8], first: usize) -> Option<Content>
    requires { (from ≤ length s.now) × (first ≤ length row.old) }
    ensures { MovesContent (InText Text s.now from) (AsBinary Text) row.old first row.new result }
{
    let mut at = from;
    let mut o = first;
    loop {
        let end = plain_end(s, at);
        let n = end - at;
        if s.len() - end < 8 {
            return None;
        }
        if row.len() - o < n + 16 {
            return None;
        }
        o = copy_wide(s, at, n, row, o);
        if s[end] == b'<' {
            if o == first {
                return None;
            }
            return Some(Content {
                count: o - first,
                next: end,
                end: o,
            });
        }
        let Letter { byte: c, next } = letter_at(s, end)?;
        row[o] = c;
        o += 1;
        at = next;
    }
}

// ---- bits

// The high bit of each byte that is no bit's letter.
pub fn no_bits(x: u64) -> u64
    ensures { Marks is_bit x result }
{
    let t = x ^ 0x3030303030303030;
    (((t & 0x7f7f7f7f7f7f7f7f) + 0x7e7e7e7e7e7e7e7e) | t) & 0x8080808080808080
}

// Pairs of digits, then fours, then all eight: what the upper half counts too much is taken off.
fn binary_of(t: u64) -> u64
    ensures { ReadIn 2 t result }
{
    let a = t - ((t >> 8) & 0x00ff00ff00ff00ff) * 254;
    let b = a - ((a >> 16) & 0x0000ffff0000ffff) * 65532;
    b - (b >> 32) * 4294967280
}

// The byte of the first n of eight letters that are bits.
fn bit_byte(x: u64, n: usize) -> u8
    requires { (1 ≤ n) × (n ≤ 8) }
    ensures { BitByte x n result }
{
    ((binary_of(leading_figures(x, n)) << (8 - n)) % 256) as u8
}

// Eight bits make a byte; fewer than eight are the last.
fn read_bits(s: &[u8], from: usize, row: &mut [u8], first: usize) -> Option<Content>
    requires { (from ≤ length s.now) × (first ≤ length row.old) }
    ensures { MovesContent (InText Bits s.now from) (AsBinary Bits) row.old first row.new result }
{
    let mut at = from;
    let mut o = first;
    loop {
        if s.len() - at < 8 {
            return None;
        }
        if row.len() <= o {
            return None;
        }
        let x = eight_bytes(s, at);
        let n = first_of(no_bits(x));
        if n == 0 {
            break;
        }
        if n < 8 {
            row[o] = bit_byte(x, n);
            return Some(Content {
                count: at + n - from,
                next: at + n,
                end: o + 1,
            });
        }
        row[o] = bit_byte(x, 8);
        o += 1;
        at += 8;
    }
    if at == from {
        return None;
    }
    Some(Content {
        count: at - from,
        next: at,
        end: o,
    })
}

// ---- words with one space between

// Each word's integer in the bytes of its kind.
fn read_integers(
    s: &[u8],
    from: usize,
    integer: Integer,
    row: &mut [u8],
    first: usize,
) -> Option<Content>
    requires { (from ≤ length s.now) × (first ≤ length row.old) }
    ensures { MovesContent (InText (Whole (is_signed integer) (width_of integer)) s.now from) (AsBinary (Whole (is_signed integer) (width_of integer))) row.old first row.new result }
{
    let mut at = from;
    let mut o = first;
    let mut count: usize = 0;
    loop {
        if s.len() - at < 32 {
            return None;
        }
        if row.len() - o < 8 {
            return None;
        }
        let One { value: z, next } = array_integer(s, at, integer)?;
        o = write_integer(row, o, integer, z);
        count += 1;
        if s[next] != b' ' {
            return Some(Content {
                count,
                next,
                end: o,
            });
        }
        at = next + 1;
    }
}

// Each word's integer in a byte.
fn read_bytes(s: &[u8], from: usize, row: &mut [u8], first: usize) -> Option<Content>
    requires { (from ≤ length s.now) × (first ≤ length row.old) }
    ensures { MovesContent (InText (Whole false W1) s.now from) (AsBinary (Whole false W1)) row.old first row.new result }
{
    let mut at = from;
    let mut o = first;
    let mut count: usize = 0;
    loop {
        if s.len() - at < 4 {
            return None;
        }
        if row.len() <= o {
            return None;
        }
        let run = three_at(s, at);
        let number = run.number;
        let digits = run.count;
        if digits == 0 {
            return None;
        }
        if 255 < number {
            return None;
        }
        row[o] = number as u8;
        o += 1;
        count += 1;
        if s[at + digits] != b' ' {
            return Some(Content {
                count,
                next: at + digits,
                end: o,
            });
        }
        at = at + digits + 1;
    }
}

// Bytes are short, and have a way of their own.
fn read_whole(s: &[u8], at: usize, integer: Integer, row: &mut [u8], o: usize) -> Option<Content>
    requires { (at ≤ length s.now) × (o ≤ length row.old) }
    ensures { MovesContent (InText (Whole (is_signed integer) (width_of integer)) s.now at) (AsBinary (Whole (is_signed integer) (width_of integer))) row.old o row.new result }
{
    match integer {
        Integer::UnsignedByte => read_bytes(s, at, row, o),
        _ => read_integers(s, at, integer, row, o),
    }
}

// ---- booleans

// `F`, `T` and `?` for 0, 1 and 2.
fn truth_byte(number: u8) -> u8
    requires { number < 3 }
    ensures { result ≡ truth_byte (pos number) }
{
    ((0x3f5446u32 >> (8 * number)) % 256) as u8
}

// Each letter's byte.
fn read_truths(s: &[u8], from: usize, row: &mut [u8], first: usize) -> Option<Content>
    requires { (from ≤ length s.now) × (first ≤ length row.old) }
    ensures { MovesContent (InText Truths s.now from) (AsBinary Truths) row.old first row.new result }
{
    let mut at = from;
    let mut o = first;
    let mut count: usize = 0;
    loop {
        if s.len() - at < 2 {
            return None;
        }
        if row.len() <= o {
            return None;
        }
        let z = truth_number(s[at]);
        if z == 3 {
            return None;
        }
        row[o] = truth_byte(z);
        o += 1;
        count += 1;
        if s[at + 1] != b' ' {
            return Some(Content {
                count,
                next: at + 1,
                end: o,
            });
        }
        at += 2;
    }
}

// ---- the elements of a cell

// The elements of a kind from a place on, up to what ends them: the end tag, or what is for the careful way.
pub fn read_content(kind: Kind, s: &[u8], at: usize, row: &mut [u8], o: usize) -> Option<Content>
    requires { (at ≤ length s.now) × (o ≤ length row.old) }
    ensures { MovesContent (InText (shape kind) s.now at) (AsBinary (shape kind)) row.old o row.new result }
{
    match elements_of(kind) {
        Elements::Truths => read_truths(s, at, row, o),
        Elements::Bits => read_bits(s, at, row, o),
        Elements::Whole(integer) => read_whole(s, at, integer, row, o),
        Elements::Text => read_text(s, at, row, o),
    }
}
