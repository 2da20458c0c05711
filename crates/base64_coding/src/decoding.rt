// A text is decoded in two passes, since a refusal writes nothing: one says how many bytes there will be, the other writes them. Each
// takes runs of letters, four at a time, as they stand from one white space to the next, and what is no such four the careful way.
ghost use Rattle.std.specs.Prelude.{◌+◌, ◌-◌, ◌/◌, ◌<◌, ◌≤◌, [], ◌∷◌, ◌≡◌, drop, length};
ghost use Rattle.std.proofs.lemmas.List.Edits.{sets};
ghost use Rattle.base64_rules.specs.Base64.{decode, one_byte, three_bytes, two_bytes};
ghost use Rattle.base64_coding.specs.Clauses.{Bounded, FitsAt, FourIs, LettersTo, Low, NextIs, buffer_with, bytes_as, decoded_size, four_number, four_sum, fours_bytes, highest_from, number_bytes, values_at};
ghost use Rattle.table.specs.Clauses.{size_as};
ghost use Rattle.base64_letters.specs.Letters.{none};

use base64_letters::letters::{LetterTable, NONE};
use table::Reason;
use text::{put_bytes, skip_white};

// What the next four characters give: the first `count` of three bytes, and the place after the characters. With fewer than three bytes
// nothing follows.
#[derive(Clone, Copy)]
struct Four {
    count: usize,
    bytes: [u8; 3],
    next: usize,
}

// ---- the careful way

// The highest byte, and 0 of none. No branch leaves the loop, so it is done by vectors.
fn highest(s: &[u8]) -> u8
    ensures { result ≡ highest_from 0 s.now }
{
    let mut most = 0;
    for c in s {
        if most < *c {
            most = *c;
        }
    }
    most
}

// The next byte that is no white space, and the place after it. Never a call, as `three_bytes` and `next_four` are none: what it finds would go
// through memory.
#[inline(always)]
fn next_byte(s: &[u8], from: usize) -> Option<(u8, usize)>
    requires { from ≤ length s.now }
    ensures { NextIs s.now from result }
{
    let i = skip_white(s, from);
    if i < s.len() {
        return Some((s[i], i + 1));
    }
    None
}

// The three that follow are the definition's: each has its own letters and test, so one over the number of bytes would be no plainer.
fn one_byte(a: u8, b: u8, table: &LetterTable) -> Option<[u8; 1]>
    requires { (a < 128) × (b < 128) }
    ensures { bytes_as result ≡ one_byte a b }
{
    let w = table.value(a);
    let x = table.value(b);
    if 64 <= w || 64 <= x {
        return None;
    }
    if x % 16 != 0 {
        return None;
    }
    Some([(w * 4 + x / 16) as u8])
}

fn two_bytes(a: u8, b: u8, c: u8, table: &LetterTable) -> Option<[u8; 2]>
    requires { (a < 128) × (b < 128) × (c < 128) }
    ensures { bytes_as result ≡ two_bytes a b c }
{
    let w = table.value(a);
    let x = table.value(b);
    let y = table.value(c);
    if 64 <= w || 64 <= x || 64 <= y {
        return None;
    }
    if y % 4 != 0 {
        return None;
    }
    Some([(w * 4 + x / 16) as u8, (x % 16 * 16 + y / 4) as u8])
}

#[inline(always)]
fn three_bytes(a: u8, b: u8, c: u8, d: u8, table: &LetterTable) -> Option<[u8; 3]>
    requires { (a < 128) × (b < 128) × (c < 128) × (d < 128) }
    ensures { bytes_as result ≡ three_bytes a b c d }
{
    let w = table.value(a);
    let x = table.value(b);
    let y = table.value(c);
    let z = table.value(d);
    if 64 <= w || 64 <= x || 64 <= y || 64 <= z {
        return None;
    }
    Some([
        (w * 4 + x / 16) as u8,
        (x % 16 * 16 + y / 4) as u8,
        (y % 4 * 64 + z) as u8,
    ])
}

// What the next four characters give, with white space among them skipped; nothing at the end of the text.
#[inline(always)]
fn next_four(s: &[u8], i: usize, table: &LetterTable) -> Option<Four>
    requires { (i ≤ length s.now) × Low s.now }
    ensures { FourIs s.now i result }
{
    let Some((a, ja)) = next_byte(s, i) else {
        return Some(Four {
            count: 0,
            bytes: [0, 0, 0],
            next: i,
        });
    };
    let (b, jb) = next_byte(s, ja)?;
    let (c, jc) = next_byte(s, jb)?;
    let (d, next) = next_byte(s, jc)?;
    if d != b'=' {
        let bytes = three_bytes(a, b, c, d, table)?;
        return Some(Four {
            count: 3,
            bytes,
            next,
        });
    }
    let None = next_byte(s, next) else {
        return None;
    };
    if c != b'=' {
        let [x, y] = two_bytes(a, b, c, table)?;
        return Some(Four {
            count: 2,
            bytes: [x, y, 0],
            next,
        });
    }
    let [x] = one_byte(a, b, table)?;
    Some(Four {
        count: 1,
        bytes: [x, 0, 0],
        next,
    })
}

// ---- runs of letters

// Four characters looked up.
fn four_values(s: &[u8], i: usize, table: &LetterTable) -> [u32; 4]
    requires { (i + 4 ≤ length s.now) × Low s.now }
    ensures { result ≡ values_at s.now i }
{
    [
        table.value(s[i]),
        table.value(s[i + 1]),
        table.value(s[i + 2]),
        table.value(s[i + 3]),
    ]
}

// Their sum: below 256 exactly where all four are letters.
fn four_sum(v: [u32; 4]) -> u32
    requires { Bounded v }
    ensures { result ≡ four_sum v }
{
    v[0] + v[1] + v[2] + v[3]
}

// The number that they are the digits of: below `NONE` exactly where all four are letters.
fn four_number(v: [u32; 4]) -> u64
    requires { Bounded v }
    ensures { result ≡ four_number v }
{
    (((v[0] as u64) * 64 + (v[1] as u64)) * 64 + (v[2] as u64)) * 64 + (v[3] as u64)
}

// The three bytes of such a number.
fn number_bytes(number: u64) -> [u8; 3]
    requires { number < none }
    ensures { result ≡ number_bytes number }
{
    [
        (number / 65536) as u8,
        (number / 256 % 256) as u8,
        (number % 256) as u8,
    ]
}

// Store by store: tried with `copy_from_slice`, by which decoding takes a hundredth longer.
fn put3(out: &mut [u8], n: usize, bytes: [u8; 3])
    requires { n + 3 ≤ length out.old }
    ensures { out.new ≡ sets out.old n bytes }
{
    out[n] = bytes[0];
    out[n + 1] = bytes[1];
    out[n + 2] = bytes[2];
}

// The place behind the fours of letters that stand from a place on. A call, as `write_fours` is, so that its loop has the registers to itself.
#[inline(never)]
fn fours_end(s: &[u8], from: usize, table: &LetterTable) -> usize
    requires { (from ≤ length s.now) × Low s.now }
    ensures { LettersTo s.now from result }
{
    let mut i = from;
    // By place: tried with `as_chunks`, by which decoding takes a seventh longer.
    while 4 <= s.len() - i {
        if 256 <= four_sum(four_values(s, i, table)) {
            return i;
        }
        i += 4;
    }
    i
}

// Writes their bytes, and gives the same place.
#[inline(never)]
fn write_fours(s: &[u8], from: usize, table: &LetterTable, out: &mut [u8], n: usize) -> usize
    requires { (from ≤ length s.now) × Low s.now × FitsAt n (decode (drop from s.now)) (length out.old) }
    ensures place { LettersTo s.now from result }
    ensures buffer { out.new ≡ sets out.old n (fours_bytes s.now from ((result - from) / 4)) }
{
    let mut i = from;
    let mut o = n;
    // By place, as in `fours_end`.
    while 4 <= s.len() - i {
        let number = four_number(four_values(s, i, table));
        if (NONE as u64) <= number {
            return i;
        }
        put3(out, o, number_bytes(number));
        i += 4;
        o += 3;
    }
    i
}

// ---- a whole text

// The first pass: how many bytes the text gives, or its refusal. Characters from 128 on are no letters, nor anything else that may stand in
// a text; all others have a place in the table.
pub fn decoded_size(s: &[u8], table: &LetterTable) -> Result<usize, Reason>
    ensures { size_as result ≡ decoded_size 0 (decode s.now) }
{
    if 128 <= highest(s) {
        return Err(Reason::Base64);
    }
    // By place: a turn takes white space, a run or four characters, so an iterator would be no plainer.
    let mut i = 0;
    let mut n = 0;
    loop {
        let from = skip_white(s, i);
        i = fours_end(s, from, table);
        n += (i - from) / 4 * 3;
        if i == from {
            let Some(four) = next_four(s, i, table) else {
                return Err(Reason::Base64);
            };
            i = four.next;
            n += four.count;
            if four.count < 3 {
                return Ok(n);
            }
        }
    }
}

// The second pass: writes the bytes of a text that gives some, for which there is room.
pub fn write_bytes(s: &[u8], table: &LetterTable, out: &mut [u8])
    requires { FitsAt 0 (decode s.now) (length out.old) }
    ensures { out.new ≡ buffer_with out.old 0 (decode s.now) }
{
    // By place, as in `decoded_size`.
    let mut i = 0;
    let mut n = 0;
    loop {
        let from = skip_white(s, i);
        i = write_fours(s, from, table, out, n);
        n += (i - from) / 4 * 3;
        if i == from {
            let Some(four) = next_four(s, i, table) else {
                return;
            };
            n = put_bytes(out, n, &four.bytes[..four.count]);
            i = four.next;
            if four.count < 3 {
                return;
            }
        }
    }
}
