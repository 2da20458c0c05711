// Eight bytes as one number, the first byte lowest: the first of marks is then the lowest (`first_lowest` of eights), and eight digits become a number by
// sums alone.
#![tactic(auto)]

ghost use Rattle.std.specs.Prelude.{◌≡◌, ◌+◌, ◌^◌, ◌≤◌, drop, length, take};
ghost use Rattle.eights.specs.Lowest.{of_lowest};
ghost use Rattle.lowest.specs.Lowest.{DecimalIs, FrontIs};

fn four_lowest(s: &[u8], at: usize) -> u32
    requires { at + 4 ≤ length s.now }
    ensures { result ≡ of_lowest (take 4 (drop at s.now)) }
{
    (((s[at + 3] as u32) * 256 + (s[at + 2] as u32)) * 256 + (s[at + 1] as u32)) * 256
        + (s[at] as u32)
}

// Two halves, which the compiler makes one load.
pub fn eight_lowest(s: &[u8], at: usize) -> u64
    requires { at + 8 ≤ length s.now }
    ensures { result ≡ of_lowest (take 8 (drop at s.now)) }
{
    (four_lowest(s, at + 4) as u64) * 4294967296 + (four_lowest(s, at) as u64)
}

// The first n of eight bytes behind zeros: in two steps, since a shift by all of them is none.
pub fn front_lowest(x: u64, n: usize) -> u64
    requires { n ≤ 7 }
    ensures { FrontIs x n result }
{
    (x << 8) << (56 - 8 * n)
}

// The number of eight digits: pairs, then fours, then all eight, each in its own part of the number.
pub fn decimal_lowest(x: u64) -> u64
    ensures { DecimalIs x result }
{
    let t = x & 0x0f0f0f0f0f0f0f0f;
    let a = (t * 10 + (t >> 8)) & 0x00ff00ff00ff00ff;
    let b = (a * 100 + (a >> 16)) & 0x0000ffff0000ffff;
    (b * 10000 + (b >> 32)) % 4294967296
}

// The compiler makes a table of it.
pub fn power_of_ten(n: usize) -> u64
    requires { n ≤ 7 }
    ensures { result ≡ 10 ^ n }
{
    match n {
        0 => 1,
        1 => 10,
        2 => 100,
        3 => 1000,
        4 => 10000,
        5 => 100000,
        6 => 1000000,
        _ => 10000000,
    }
}
