// The flags of a BINARY2 row: read, looked up for a column, made column by column, written.
#![tactic(auto)]

ghost use Rattle.std.specs.Prelude.{true, [], ◌++◌, ◌∷◌, ◌≡◌, ◌+◌, ◌<◌, ◌≤◌, eqb, drop, get_or, length, take};
ghost use Rattle.number.specs.Number.{of_digits, to_digits};
ghost use Rattle.table.specs.Wrote.{Wrote};
ghost use Rattle.binary.specs.Binary.{bit_bytes, flag_bit, pack, read_flags};
ghost use Rattle.flags.specs.Clauses.{ReadsFlags};

use table::Reason;

// ---- "A BINARY2 row begins with (columns+7)/8 bytes, rounded down, of flags"

// The flags of a row as one number, the first column's the highest of its digits in base 2, and the place after them.
#[derive(Clone, Copy)]
pub struct Flags {
    pub word: u64,
    pub next: usize,
}

fn flag_bytes(columns: usize) -> usize
    requires { columns ≤ 64 }
    ensures { (result ≡ bit_bytes columns) × (result ≤ 8) }
{
    (columns + 7) / 8
}

fn few_bytes(s: &[u8], at: usize, n: usize) -> u64
    requires { (at + n ≤ length s.now) × (n ≤ 8) }
    ensures { result ≡ of_digits 256 0 (take n (drop at s.now)) }
{
    let mut x: u64 = 0;
    for b in &s[at..at + n] {
        x = x * 256 + (*b as u64);
    }
    x
}

// "flag bytes first (8, then 13, at column 0)"
pub fn read_flags(s: &[u8], at: usize, columns: usize) -> Result<Flags, Reason>
    requires { (at ≤ length s.now) × (columns ≤ 64) }
    ensures { ReadsFlags (read_flags columns (drop at s.now)) s.now at columns result }
{
    let n = flag_bytes(columns);
    if s.len() - at < n {
        return Err(Reason::Cut);
    }
    let x = few_bytes(s, at, n);
    let spare = 8 * n - columns;
    let unit = 1u64 << spare;
    let flags = Flags {
        word: x / unit,
        next: at + n,
    };
    if x % unit == 0 {
        Ok(flags)
    } else {
        Err(Reason::Padding)
    }
}

// The flag of column k.
pub fn is_flagged(flags: u64, columns: usize, k: usize) -> bool
    requires { (k < columns) × (columns ≤ 64) }
    ensures { result ≡ eqb (get_or (to_digits 2 columns flags) k 0) (flag_bit true) }
{
    (flags >> (columns - 1 - k)) % 2 == 1
}

// The flags of k columns, and the next one's.
pub fn add_flag(flags: u64, k: usize, null: bool) -> u64
    requires { k < 64 }
    ensures { to_digits 2 (k + 1) result ≡ to_digits 2 k flags ++ (flag_bit null ∷ []) }
{
    let others = flags << 1;
    if null { others + 1 } else { others }
}

pub fn write_flags(flags: u64, columns: usize, out: &mut [u8], at: usize) -> usize
    requires { (columns ≤ 64) × (at + bit_bytes columns ≤ length out.old) }
    ensures { Wrote out.old at (pack (to_digits 2 columns flags)) out.new result }
{
    let n = flag_bytes(columns);
    let x = flags << (8 * n - columns);
    for k in 0..n {
        let b = (x >> (8 * (n - 1 - k))) % 256;
        out[at + k] = b as u8;
    }
    at + n
}
