// Integers in bytes: "Integers are big-endian, two's complement for the signed: 1, 2, 4, 8 bytes."
#![tactic(auto)]

ghost use Rattle.std.specs.Prelude.{◌≡◌, ◌%◌, ◌+◌, ◌^◌, ◌≤◌, drop, length, take};
ghost use Rattle.number.specs.Clauses.{is_signed, size};
ghost use Rattle.number.specs.Number.{of_digits, of_pattern, pattern, to_digits};
ghost use Rattle.table.specs.Wrote.{Wrote};

use number::Integer;

// ---- "Integers are big-endian"

fn two_bytes(s: &[u8], at: usize) -> u16
    requires { at + 2 ≤ length s.now }
    ensures { result ≡ of_digits 256 0 (take 2 (drop at s.now)) }
{
    u16::from_be_bytes([s[at], s[at + 1]])
}

pub fn four_bytes(s: &[u8], at: usize) -> u32
    requires { at + 4 ≤ length s.now }
    ensures { result ≡ of_digits 256 0 (take 4 (drop at s.now)) }
{
    u32::from_be_bytes([s[at], s[at + 1], s[at + 2], s[at + 3]])
}

// Two halves, which the compiler makes one load; an array of eight bytes, one by one, is no plainer.
pub fn eight_bytes(s: &[u8], at: usize) -> u64
    requires { at + 8 ≤ length s.now }
    ensures { result ≡ of_digits 256 0 (take 8 (drop at s.now)) }
{
    (four_bytes(s, at) as u64) * 4294967296 + (four_bytes(s, at + 4) as u64)
}

// ---- "two's complement for the signed"

// The low bytes of x, as many as the kind has, "read as that width's two's complement".
pub fn of_low_bytes(x: u64, kind: Integer) -> i64
    ensures { result ≡ of_pattern (is_signed kind) (size kind) (x % 256 ^ size kind) }
{
    match kind {
        Integer::UnsignedByte => (x % 256) as i64,
        Integer::Short => ((x % 65536) as u16).cast_signed() as i64,
        Integer::Int => ((x % 4294967296) as u32).cast_signed() as i64,
        Integer::Long => x.cast_signed(),
    }
}

// Four and eight bytes once more, by sums, for the loops over longs: there the compiler makes vectors of two `from_be_bytes`, which without SSSE3 take
// twice as long.
fn four_by_sums(s: &[u8], at: usize) -> u32
    requires { at + 4 ≤ length s.now }
    ensures { result ≡ of_digits 256 0 (take 4 (drop at s.now)) }
{
    (((s[at] as u32) * 256 + (s[at + 1] as u32)) * 256 + (s[at + 2] as u32)) * 256
        + (s[at + 3] as u32)
}

fn eight_by_sums(s: &[u8], at: usize) -> u64
    requires { at + 8 ≤ length s.now }
    ensures { result ≡ of_digits 256 0 (take 8 (drop at s.now)) }
{
    (four_by_sums(s, at) as u64) * 4294967296 + (four_by_sums(s, at + 4) as u64)
}

// The integer of a kind in the bytes at a place.
pub fn read_integer(s: &[u8], at: usize, kind: Integer) -> i64
    requires { at + size kind ≤ length s.now }
    ensures { result ≡ of_pattern (is_signed kind) (size kind) (of_digits 256 0 (take (size kind) (drop at s.now))) }
{
    match kind {
        Integer::UnsignedByte => s[at] as i64,
        Integer::Short => two_bytes(s, at).cast_signed() as i64,
        Integer::Int => four_bytes(s, at).cast_signed() as i64,
        Integer::Long => eight_by_sums(s, at).cast_signed(),
    }
}

// ---- numbers into big-endian bytes; each function gives the place after them

// (`text` has this too, but neither crate stands on the other.)
fn put_bytes(out: &mut [u8], at: usize, bytes: &[u8]) -> usize
    requires { at + length bytes.now ≤ length out.old }
    ensures { Wrote out.old at bytes.now out.new result }
{
    let next = at + bytes.len();
    out[at..next].copy_from_slice(bytes);
    next
}

pub fn put_four(out: &mut [u8], at: usize, x: u32) -> usize
    requires { at + 4 ≤ length out.old }
    ensures { Wrote out.old at (to_digits 256 4 x) out.new result }
{
    put_bytes(out, at, &u32::to_be_bytes(x))
}

pub fn put_eight(out: &mut [u8], at: usize, x: u64) -> usize
    requires { at + 8 ≤ length out.old }
    ensures { Wrote out.old at (to_digits 256 8 x) out.new result }
{
    put_bytes(out, at, &u64::to_be_bytes(x))
}

// The same once more, by bytes, for the loops over elements: of `to_be_bytes` too the compiler makes vectors there.
fn store_two(out: &mut [u8], at: usize, x: u16) -> usize
    requires { at + 2 ≤ length out.old }
    ensures { Wrote out.old at (to_digits 256 2 x) out.new result }
{
    out[at] = (x / 256) as u8;
    out[at + 1] = (x % 256) as u8;
    at + 2
}

fn store_four(out: &mut [u8], at: usize, x: u32) -> usize
    requires { at + 4 ≤ length out.old }
    ensures { Wrote out.old at (to_digits 256 4 x) out.new result }
{
    let middle = store_two(out, at, (x / 65536) as u16);
    store_two(out, middle, (x % 65536) as u16)
}

fn store_eight(out: &mut [u8], at: usize, x: u64) -> usize
    requires { at + 8 ≤ length out.old }
    ensures { Wrote out.old at (to_digits 256 8 x) out.new result }
{
    let middle = store_four(out, at, (x / 4294967296) as u32);
    store_four(out, middle, (x % 4294967296) as u32)
}

// The low bytes of the integer's pattern of eight, which for an integer of the width are its own (Laws, low-pattern).
pub fn write_integer(out: &mut [u8], at: usize, kind: Integer, z: i64) -> usize
    requires { at + size kind ≤ length out.old }
    ensures { Wrote out.old at (to_digits 256 (size kind) (pattern 8 z)) out.new result }
{
    let x = z.cast_unsigned();
    match kind {
        Integer::UnsignedByte => {
            out[at] = (x % 256) as u8;
            at + 1
        }
        Integer::Short => store_two(out, at, (x % 65536) as u16),
        Integer::Int => store_four(out, at, (x % 4294967296) as u32),
        Integer::Long => store_eight(out, at, x),
    }
}
