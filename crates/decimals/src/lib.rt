// Integers in words: "integers shortest decimal, no `+`".
#![tactic(auto)]

ghost use Rattle.std.specs.Prelude.{◌≡◌, ◌+◌, ◌≤◌, length};
ghost use Rattle.std.proofs.lemmas.List.Edits.{sets};
ghost use Rattle.decimals.specs.Clauses.{numerals};
ghost use Rattle.number.specs.Number.{digits, shortest};
ghost use Rattle.table.specs.Wrote.{Wrote};

// How many decimal digits x has.
fn digit_count(x: u64) -> usize
    ensures { result ≡ length (digits 20 x) }
{
    match x.checked_ilog10() {
        Some(power) => power as usize + 1,
        None => 1,
    }
}

pub fn shortest_length(z: i64) -> usize
    ensures { result ≡ length (shortest z) }
{
    let count = digit_count(z.unsigned_abs());
    if 0 <= z { count } else { count + 1 }
}

// The n low decimal digits of x, two at a time, from the last to the first. (A `for` would reckon both places from its index: no plainer.)
fn put_digits(out: &mut [u8], at: usize, n: usize, x: u64)
    requires { at + n ≤ length out.old }
    ensures { out.new ≡ sets out.old at (numerals n x) }
{
    let mut left = n;
    let mut v = x;
    while 2 <= left {
        left -= 2;
        let pair = v % 100;
        out[at + left + 1] = (pair % 10 + 48) as u8;
        out[at + left] = (pair / 10 + 48) as u8;
        v /= 100;
    }
    if left == 1 {
        out[at] = (v % 10 + 48) as u8;
    }
}

fn write_digits(out: &mut [u8], at: usize, x: u64) -> usize
    requires { at + length (digits 20 x) ≤ length out.old }
    ensures { Wrote out.old at (digits 20 x) out.new result }
{
    let count = digit_count(x);
    put_digits(out, at, count, x);
    at + count
}

pub fn write_shortest(out: &mut [u8], at: usize, z: i64) -> usize
    requires { at + length (shortest z) ≤ length out.old }
    ensures { Wrote out.old at (shortest z) out.new result }
{
    let x = z.unsigned_abs();
    if 0 <= z {
        return write_digits(out, at, x);
    }
    out[at] = b'-';
    write_digits(out, at + 1, x)
}
