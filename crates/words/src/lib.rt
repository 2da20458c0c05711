// Words read as integers: a character at a time, the whole text as one word, and words of plain digits quickly.
#![tactic(auto)]

ghost use Rattle.std.specs.Prelude.{◌≡◌, Bool, IfSome, false, true, ◌<◌, ◌≤◌, length};
ghost use Rattle.number.specs.Clauses.{is_signed};
ghost use Rattle.words.specs.Clauses.{DigitsAt, quick_run, quickly, reading_of, signed_as, top};
ghost use Rattle.words.specs.Words.{capped, decimal_next, decimal_reading, first_next, fresh, hexadecimal_next, hexadecimal_reading, reading, signed_reading, next_word, word, zero_next};

use number::{Integer, integer_bytes};

// ---- kinds

pub fn is_signed(kind: Integer) -> bool
    ensures { result ≡ is_signed kind }
{
    match kind {
        Integer::UnsignedByte => false,
        Integer::Short => true,
        Integer::Int => true,
        Integer::Long => true,
    }
}

// The largest integer of a kind.
pub fn top_of(kind: Integer) -> u64
    ensures { result ≡ top kind }
{
    match kind {
        Integer::UnsignedByte => 255,
        Integer::Short => 32767,
        Integer::Int => 2147483647,
        Integer::Long => 9223372036854775807,
    }
}

// ---- words, a character at a time

// What a word has been so far.
#[derive(Clone, Copy)]
pub enum Form {
    Start,
    // `0` alone: digits may follow, or `x`
    Zero,
    Decimal,
    Plus,
    Minus,
    Hexadecimal,
    // no integer any more, whatever follows
    Broken,
}

// A word that is being read: its form, how many digits it has, and their number (of a decimal one at most 10 ^ 19, which is outside every kind).
#[derive(Clone, Copy)]
pub struct Word {
    pub form: Form,
    pub count: usize,
    pub value: u64,
}

// Why a word is no integer of a kind.
#[derive(Clone, Copy)]
pub enum IntegerError {
    // written as an integer, but outside the kind's range
    Outside,
    // not written as an integer
    Unwritten,
}

// The number with a decimal digit more.
fn with_digit(value: u64, digit: u64) -> u64
    requires { digit < 10 }
    ensures { result ≡ capped value digit }
{
    if value < 1000000000000000000 {
        value * 10 + digit
    } else {
        10000000000000000000
    }
}

// The word of a first character.
#[tactic(auto, unfolding(crate::specs::Words::first_next))]
fn first(c: u8) -> Word
    ensures { result ≡ first_next c }
{
    match c {
        b'+' => Word::of(Form::Plus),
        b'-' => Word::of(Form::Minus),
        b'0' => Word {
            form: Form::Zero,
            count: 1,
            value: 0,
        },
        _ => Word::of(Form::Decimal).with_decimal(c),
    }
}

// The word of a `0` and a character after it.
#[tactic(auto, unfolding(crate::specs::Words::zero_next))]
fn after_zero(c: u8) -> Word
    ensures { result ≡ zero_next c }
{
    if c == b'x' {
        return Word::of(Form::Hexadecimal);
    }
    let zero = Word {
        form: Form::Decimal,
        count: 1,
        value: 0,
    };
    zero.with_decimal(c)
}

impl Word {
    pub fn new() -> Word
        ensures { result ≡ fresh }
    {
        Word::of(Form::Start)
    }

    // A word of a form, with no digit yet.
    fn of(form: Form) -> Word
        ensures { result ≡ word form 0 0 }
    {
        Word {
            form,
            count: 0,
            value: 0,
        }
    }

    // The word with a character more.
    #[tactic(auto, unfolding(crate::specs::Words::next_word))]
    pub fn next(self, c: u8) -> Word
        ensures { result ≡ next_word self c }
    {
        match self.form {
            Form::Start => first(c),
            Form::Zero => after_zero(c),
            Form::Decimal | Form::Plus | Form::Minus => self.with_decimal(c),
            Form::Hexadecimal => self.with_hexadecimal(c),
            Form::Broken => self,
        }
    }

    fn with_decimal(self, c: u8) -> Word
        ensures { result ≡ decimal_next self.form self.count self.value c }
    {
        match c {
            b'0'..=b'9' if self.count < 20 => Word {
                count: self.count + 1,
                value: with_digit(self.value, (c - b'0') as u64),
                ..self
            },
            _ => Word::of(Form::Broken),
        }
    }

    fn with_hexadecimal(self, c: u8) -> Word
        ensures { result ≡ hexadecimal_next self.count self.value c }
    {
        let digit = text::digit_value(c) as u64;
        if 16 <= digit || 16 <= self.count {
            return Word::of(Form::Broken);
        }
        Word {
            form: Form::Hexadecimal,
            count: self.count + 1,
            value: (self.value % 1152921504606846976) * 16 + digit,
        }
    }

    // The word as it is now, at a kind.
    #[tactic(auto, unfolding(crate::specs::Words::reading))]
    pub fn read(self, kind: Integer) -> Result<i64, IntegerError>
        ensures { reading_of result ≡ reading kind self }
    {
        match self.form {
            Form::Start | Form::Broken => Err(IntegerError::Unwritten),
            Form::Zero => Ok(0),
            Form::Decimal => self.read_positive(kind),
            Form::Plus if is_signed(kind) => self.read_positive(kind),
            Form::Plus => Err(IntegerError::Unwritten),
            Form::Minus => self.read_negative(kind),
            Form::Hexadecimal => self.read_hexadecimal(kind),
        }
    }

    // A number without a sign, or after a plus.
    fn read_positive(self, kind: Integer) -> Result<i64, IntegerError>
        ensures { reading_of result ≡ decimal_reading kind false self.count self.value }
    {
        if self.count == 0 {
            return Err(IntegerError::Unwritten);
        }
        if top_of(kind) < self.value {
            return Err(IntegerError::Outside);
        }
        Ok(self.value as i64)
    }

    // A number after a minus, which a kind without a sign does not have; the least long is -1 - (2 ^ 63 - 1).
    fn read_negative(self, kind: Integer) -> Result<i64, IntegerError>
        ensures { reading_of result ≡ signed_reading kind true self.count self.value }
    {
        if !is_signed(kind) || self.count == 0 {
            return Err(IntegerError::Unwritten);
        }
        if self.value == 0 {
            return Ok(0);
        }
        if top_of(kind) < self.value - 1 {
            return Err(IntegerError::Outside);
        }
        Ok(-1 - ((self.value - 1) as i64))
    }

    // "1 to 2, 4, 8, 16 hexadigits"
    fn read_hexadecimal(self, kind: Integer) -> Result<i64, IntegerError>
        ensures { reading_of result ≡ hexadecimal_reading kind self.count self.value }
    {
        if self.count == 0 || 2 * integer_bytes(kind) < self.count {
            return Err(IntegerError::Unwritten);
        }
        Ok(integers::of_low_bytes(self.value, kind))
    }
}

// ---- words of plain digits, quickly

// A run of digits: their number, and the place after them.
#[derive(Clone, Copy)]
struct Digits {
    pub number: u64,
    pub next: usize,
}

// The digits from `at` on, at most 18 of them, so that no number overflows; the character after them is not looked at.
fn quick_digits(s: &[u8], at: usize) -> Digits
    requires { at ≤ length s.now }
    ensures { DigitsAt s.now at result.number result.next }
{
    let end = s.len().min(at + 18);
    let mut number = 0;
    for next in at..end {
        let c = s[next];
        if !c.is_ascii_digit() {
            return Digits { number, next };
        }
        number = number * 10 + (c - b'0') as u64;
    }
    Digits { number, next: end }
}

// The number of the digits from `at` on and the place after them, if there are some and it is at most the kind's largest.
fn quick_number(s: &[u8], at: usize, kind: Integer) -> Option<(u64, usize)>
    requires { at ≤ length s.now }
    ensures run { (negative : Bool) → signed_as negative result ≡ quick_run kind negative s.now at }
    ensures small { IfSome result (λ r. r.0 ≤ top kind) }
{
    let Digits { number, next } = quick_digits(s, at);
    if next == at || top_of(kind) < number {
        return None;
    }
    Some((number, next))
}

// An integer that is read at once, and the place after it: at most 18 digits from `at` on, with a minus before them or not, if their number is at
// most the kind's largest (so the least integer is for the careful way, as is any other word); the character after them is the caller's to look at.
pub fn quick_integer(s: &[u8], at: usize, kind: Integer) -> Option<(i64, usize)>
    requires { at < length s.now }
    ensures { result ≡ quickly kind s.now at }
{
    if s[at] != b'-' {
        let (number, next) = quick_number(s, at, kind)?;
        return Some((number as i64, next));
    }
    if !is_signed(kind) {
        return None;
    }
    let (number, next) = quick_number(s, at + 1, kind)?;
    Some((-(number as i64), next))
}
