// Eight bytes as one number: copies that may write more than they mean, tests of eight bytes at once, eight decimal digits at once.
#![tactic(auto)]

ghost use Rattle.std.specs.Prelude.{◌≡◌, ◌%◌, ◌*◌, ◌+◌, ◌/◌, ◌<◌, ◌≤◌, drop, length, take};
ghost use Rattle.moving.specs.Puts.{Puts};
ghost use Rattle.eights.specs.Lowest.{FirstLowest, TurnedRound};
ghost use Rattle.eights.specs.Marks.{FirstIs, Marks, is_letter, run};
ghost use Rattle.eights.specs.Parts.{Quarters, Singles};
ghost use Rattle.number.specs.Number.{of_digits, to_digits};

use integers::{eight_bytes, put_eight};

// Copies n bytes, eight at a time: up to seven bytes more are written.
pub fn copy_wide(s: &[u8], from: usize, n: usize, row: &mut [u8], o: usize) -> usize
    requires { (from + n + 8 ≤ length s.now) × (o + n + 8 ≤ length row.old) }
    ensures { Puts row.old o (take n (drop from s.now)) row.new result }
{
    let mut k: usize = 0;
    while k < n {
        put_eight(row, o + k, eight_bytes(s, from + k));
        k += 8;
    }
    o + n
}

// ---- eight bytes at once: which of them are letters, that is 1 to 127

// The high bit of each byte that is none.
fn no_letters(x: u64) -> u64
    ensures { Marks is_letter x result }
{
    ((((x & 0x7f7f7f7f7f7f7f7f) + 0x7f7f7f7f7f7f7f7f) ^ 0x8080808080808080) | x)
        & 0x8080808080808080
}

// The same bytes, the last first: neighbours change places, then pairs, then fours. The compiler makes one instruction of it.
fn turned(x: u64) -> u64
    ensures { TurnedRound x result }
{
    let a = ((x >> 8) & 0x00ff00ff00ff00ff) + ((x & 0x00ff00ff00ff00ff) << 8);
    let b = ((a >> 16) & 0x0000ffff0000ffff) + ((a & 0x0000ffff0000ffff) << 16);
    (b >> 32) + (b % 4294967296) * 4294967296
}

// How many bytes come before the first that is marked, where the first is lowest: a processor finds the lowest bit at once.
pub fn first_lowest(m: u64) -> usize
    ensures { FirstLowest m result }
{
    (u64::trailing_zeros(m) / 8) as usize
}

// How many bytes come before the first that is marked, where the first is highest. The test spares the processor the case of no bit.
pub fn first_of(m: u64) -> usize
    ensures { FirstIs m result }
{
    if m == 0 {
        return 8;
    }
    first_lowest(turned(m))
}

// How many of the next eight bytes are letters, up to the first that is none.
pub fn letters_ahead(s: &[u8], at: usize) -> usize
    requires { at + 8 ≤ length s.now }
    ensures { result ≡ run is_letter (take 8 (drop at s.now)) }
{
    first_of(no_letters(eight_bytes(s, at)))
}

// ---- the digits of a number below 100,000,000, each a byte: its halves, their halves, and theirs, each in its own part of the number

// Four digits and four.
fn halves(v: u64) -> u64
    requires { v < 100000000 }
    ensures { result ≡ v / 10000 * 4294967296 + v % 10000 }
{
    v + v / 10000 * 4294957296
}

// Two digits four times, of two numbers below 10,000.
fn quarters(x: u64) -> u64
    requires { x < 281474976710656 }
    ensures { Quarters x result }
{
    x + (((x * 5243) >> 19) & 0x0000007f0000007f) * 65436
}

// One digit eight times, of four numbers below 100.
fn singles(x: u64) -> u64
    requires { x < 72057594037927936 }
    ensures { Singles x result }
{
    x + (((x * 103) >> 10) & 0x000f000f000f000f) * 246
}

pub fn eight_digits(v: u64) -> u64
    requires { v < 100000000 }
    ensures { result ≡ of_digits 256 0 (to_digits 10 8 v) }
{
    singles(quarters(halves(v)))
}
