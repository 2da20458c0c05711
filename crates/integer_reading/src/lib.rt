// Integers in the text of a cell: digits eight at once, and words that are plain; everything else is left to the careful way.
#![tactic(auto)]

ghost use Rattle.std.specs.Prelude.{cond, ◌≡◌, ◌+◌, ◌<◌, ◌^◌, ◌≤◌, drop, length};
ghost use Rattle.std.specs.Int.Bits.{bit_xor};
ghost use Rattle.eights.specs.Marks.{Marks};
ghost use Rattle.integer_reading.specs.Figures.{AfterMinus, EightAt, EndsBefore, FiguresAt, Leading, ReadIn, ShortRun, is_digit};
ghost use Rattle.integer_reading.specs.Runs.{Passes};
ghost use Rattle.moving.specs.Contents.{FindsOne, InText};
ghost use Rattle.number.specs.Clauses.{is_signed, width_of};
ghost use Rattle.number.specs.Number.{with_sign};
ghost use Rattle.table.specs.Shape.{Whole};

use eights::{first_lowest, first_of};
use integers::eight_bytes;
use lowest::{decimal_lowest, eight_lowest, front_lowest, power_of_ten};
use moving::One;
use number::Integer;
use words::{is_signed, top_of};

// ---- digits, eight at once

// The first n of eight characters, without what makes them characters.
pub fn leading_figures(x: u64, n: usize) -> u64
    requires { (1 ≤ n) × (n ≤ 8) }
    ensures { Leading x n result }
{
    (x ^ 0x3030303030303030) >> (64 - 8 * n)
}

// The same of fewer than eight, or none.
fn few_figures(x: u64, n: usize) -> u64
    requires { n ≤ 7 }
    ensures { Leading x n result }
{
    ((x ^ 0x3030303030303030) >> 8) >> (56 - 8 * n)
}

// The high bit of each byte that is no digit.
pub fn no_digits(x: u64) -> u64
    ensures { Marks is_digit x result }
{
    let t = x ^ 0x3030303030303030;
    (((t & 0x7f7f7f7f7f7f7f7f) + 0x7676767676767676) | t) & 0x8080808080808080
}

// Pairs of digits, then fours, then all eight: what the upper half counts too much is taken off.
fn decimal_of(t: u64) -> u64
    ensures { ReadIn 10 t result }
{
    let a = t - ((t >> 8) & 0x00ff00ff00ff00ff) * 246;
    let b = a - ((a >> 16) & 0x0000ffff0000ffff) * 65436;
    b - (b >> 32) * 4294957296
}

// A run of digits: their number, and how many they are. No Option where none is taken: a count of 0 is found without a branch of its own.
#[derive(Clone, Copy)]
pub struct Run {
    pub number: u64,
    pub count: usize,
}

// The number of m + 8 digits: the first m, and the eight behind them. x is what was loaded at the place: a second load would take both apart.
fn two_runs(x: u64, s: &[u8], at: usize, m: usize) -> u64
    requires { (m ≤ 7) × Passes is_digit s.now at (m + 8) × EightAt s.now at x }
    ensures { FiguresAt s.now at (m + 8) result }
{
    let high = decimal_of(few_figures(x, m));
    let low = decimal_of(leading_figures(eight_bytes(s, at + m), 8));
    high * 100000000 + low
}

// Sixteen to nineteen digits. Where there are more, none is taken.
fn long_run(x: u64, s: &[u8], at: usize) -> Run
    requires { (at + 24 ≤ length s.now) × Passes is_digit s.now at 16 × EightAt s.now at x }
    ensures { FiguresAt s.now at result.count result.number × (result.count ≤ 19) }
{
    let m = first_of(no_digits(eight_bytes(s, at + 16)));
    if 3 < m {
        return Run {
            number: 0,
            count: 0,
        };
    }
    let high = two_runs(x, s, at, m);
    let low = decimal_of(leading_figures(eight_bytes(s, at + m + 8), 8));
    Run {
        number: high * 100000000 + low,
        count: m + 16,
    }
}

// Eight digits or more.
fn more_digits(x: u64, s: &[u8], at: usize) -> Run
    requires { (at + 24 ≤ length s.now) × Passes is_digit s.now at 8 × EightAt s.now at x }
    ensures { FiguresAt s.now at result.count result.number × (result.count ≤ 19) }
{
    let m = first_of(no_digits(eight_bytes(s, at + 8)));
    if m < 8 {
        return Run {
            number: two_runs(x, s, at, m),
            count: m + 8,
        };
    }
    long_run(x, s, at)
}

// The digits at a place, at most nineteen.
fn digits_at(s: &[u8], at: usize) -> Run
    requires { at + 24 ≤ length s.now }
    ensures { FiguresAt s.now at result.count result.number × (result.count ≤ 19) }
{
    let x = eight_bytes(s, at);
    let count = first_of(no_digits(x));
    if count < 8 {
        return Run {
            number: decimal_of(few_figures(x, count)),
            count,
        };
    }
    more_digits(x, s, at)
}

// ---- one element by its value

// The place of the first digit, behind a minus if the kind has a sign.
fn after_minus(s: &[u8], at: usize, signed: bool) -> usize
    requires { at + 1 ≤ length s.now }
    ensures { AfterMinus signed s.now at result }
{
    if !signed {
        return at;
    }
    if s[at] == b'-' {
        return at + 1;
    }
    at
}

// The compiler makes the two ways one.
fn with_sign(minus: bool, number: u64) -> i64
    requires { number < 2 ^ 63 }
    ensures { result ≡ with_sign minus number }
{
    if minus {
        return 0 - (number as i64);
    }
    number as i64
}

// A word of digits, with a minus before it or not; the byte after it is the caller's to look at.
pub fn text_integer(s: &[u8], at: usize, integer: Integer) -> Option<One>
    requires { at ≤ length s.now }
    ensures { FindsOne (InText (Whole (is_signed integer) (width_of integer)) s.now at) result }
{
    if s.len() - at < 32 {
        return None;
    }
    let first = after_minus(s, at, is_signed(integer));
    let run = digits_at(s, first);
    let number = run.number;
    let count = run.count;
    if count == 0 {
        return None;
    }
    if top_of(integer) < number {
        return None;
    }
    Some(One {
        value: with_sign(first != at, number),
        next: first + count,
    })
}

// ---- a word among others

// The digits of a text, at most fifteen; where there are more, none is taken. x has its first eight characters, the first lowest, and it goes on at
// the place.
fn short_run(x: u64, s: &[u8], behind: usize) -> Run
    requires { behind + 8 ≤ length s.now }
    ensures { ShortRun x (drop behind s.now) result.count result.number }
{
    let first = no_digits(x);
    if first != 0 {
        let count = first_lowest(first);
        return Run {
            number: decimal_lowest(front_lowest(x, count)),
            count,
        };
    }
    let y = eight_lowest(s, behind);
    let second = no_digits(y);
    if second == 0 {
        return Run {
            number: 0,
            count: 0,
        };
    }
    let n = first_lowest(second);
    Run {
        number: decimal_lowest(x) * power_of_ten(n) + decimal_lowest(front_lowest(y, n)),
        count: n + 8,
    }
}

// A word that is not short.
fn long_integer(s: &[u8], at: usize, integer: Integer) -> Option<One>
    requires { at ≤ length s.now }
    ensures { FindsOne (InText (Whole (is_signed integer) (width_of integer)) s.now at) result × EndsBefore (length s.now) result }
{
    let one = text_integer(s, at, integer)?;
    if s.len() <= one.next {
        return None;
    }
    Some(one)
}

// A word among others, which does not wait for its sign: a minus counts as a zero before its digits. Called in one place, so that the compiler
// makes one loop of it.
pub fn array_integer(s: &[u8], at: usize, integer: Integer) -> Option<One>
    requires { at + 32 ≤ length s.now }
    ensures { FindsOne (InText (Whole (is_signed integer) (width_of integer)) s.now at) result × EndsBefore (length s.now) result }
{
    let first = after_minus(s, at, is_signed(integer));
    let minus = first - at;
    let run = short_run(eight_lowest(s, at) + (minus as u64) * 3, s, at + 8);
    let number = run.number;
    let count = run.count;
    if count <= minus {
        return long_integer(s, at, integer);
    }
    if top_of(integer) < number {
        return None;
    }
    Some(One {
        value: with_sign(first != at, number),
        next: at + count,
    })
}

// ---- words of one to three digits, without a branch on how many

fn is_digit(c: u8) -> bool
    ensures { result ≡ is_digit c }
{
    (c ^ 48) < 10
}

// What a digit stands for.
fn figure(c: u8) -> u64
    ensures { (result ≡ bit_xor c 48) × (result < 256) }
{
    (c ^ 48) as u64
}

// The compiler makes no branch of it.
fn pick(first: bool, a: u64, b: u64) -> u64
    ensures { result ≡ cond first a b }
{
    if first {
        return a;
    }
    b
}

// The digits at a place, at most three.
pub fn three_at(s: &[u8], at: usize) -> Run
    requires { at + 3 ≤ length s.now }
    ensures { FiguresAt s.now at result.count result.number × (result.count ≤ 3) }
{
    let a = s[at];
    let b = s[at + 1];
    let c = s[at + 2];
    if !is_digit(a) {
        return Run {
            number: 0,
            count: 0,
        };
    }
    let two = is_digit(b);
    let three = is_digit(c);
    let one_digit = figure(a);
    let two_digits = one_digit * 10 + figure(b);
    let three_digits = two_digits * 10 + figure(c);
    Run {
        number: pick(two, pick(three, three_digits, two_digits), one_digit),
        count: pick(two, pick(three, 3, 2), 1) as usize,
    }
}
