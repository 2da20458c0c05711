// References: what stands between `&` and `;`, and the code of the character that it means.
ghost use Rattle.std.specs.Prelude.{◌≡◌};
ghost use Rattle.tabledata.specs.TableData.{expanded, named, names, numeric};
ghost use Rattle.character_reading.specs.References.{base_in, reference_as, value_in};

use text::{digit_value, same_bytes};

// "References: amp, lt, gt, quot, apos" (Tried: a match on the names. It falls through at fifteen bytes, each with a goal of its own.)
fn name_means(name: &[u8]) -> Option<u32>
    ensures { named names name.now ≡ reference_as result }
{
    if same_bytes(b"amp", name) {
        return Some(38);
    }
    if same_bytes(b"lt", name) {
        return Some(60);
    }
    if same_bytes(b"gt", name) {
        return Some(62);
    }
    if same_bytes(b"quot", name) {
        return Some(34);
    }
    if same_bytes(b"apos", name) {
        return Some(39);
    }
    None
}

// The base of its digits.
fn base(hex: bool) -> u32
    ensures { result ≡ base_in hex }
{
    if hex { 16 } else { 10 }
}

// "numeric (`&#` or `&#x`) with 1 to 8 digits"
fn number_means(digits: &[u8], hex: bool) -> Option<u32>
    ensures { numeric (value_in hex) (base_in hex) digits.now ≡ reference_as result }
{
    if digits.is_empty() || 8 < digits.len() {
        return None;
    }
    let base = base(hex);
    let mut value = 0;
    for &c in digits {
        let digit = digit_value(c) as u32;
        if base <= digit {
            return None;
        }
        value = value * base + digit;
    }
    Some(value)
}

// A name, or `#x` and hexadigits, or `#` and digits.
pub(crate) fn expand(name: &[u8]) -> Option<u32>
    ensures { expanded name.now ≡ reference_as result }
{
    let [b'#', number @ ..] = name else {
        return name_means(name);
    };
    match number {
        [b'x', digits @ ..] => number_means(digits, true),
        _ => number_means(number, false),
    }
}
