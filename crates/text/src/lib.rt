// Bytes of a text, as declarations, words, base64 and TABLEDATA share them: white space, a word at a place, whole tags, hexadigits; and
// bytes that are written at a place.
#![tactic(auto)]

ghost use Rattle.std.specs.Prelude.{◌+◌, ◌≤◌, drop, length, ◌≡◌};
ghost use Rattle.table.specs.Bytes.{after, ends, is_white, same, tag};
ghost use Rattle.table.specs.Wrote.{Wrote};
ghost use Rattle.text.specs.Clauses.{DigitIs, Skipped, TagIs};

// "White space is bytes 9, 10, 13, 32."
pub fn is_white(c: u32) -> bool
    ensures { result ≡ is_white c }
{
    match c {
        9 | 10 | 13 | 32 => true,
        _ => false,
    }
}

// The place after white space.
pub fn skip_white(s: &[u8], at: usize) -> usize
    requires { at ≤ length s.now }
    ensures { Skipped s.now at result }
{
    for i in at..s.len() {
        if !is_white(s[i] as u32) {
            return i;
        }
    }
    s.len()
}

// The text goes on with the word: the place after it.
pub fn goes_on(s: &[u8], at: usize, word: &[u8]) -> Option<usize>
    requires { at ≤ length s.now }
    ensures { TagIs (λ n. after n word.now (drop at s.now)) s.now at result }
{
    if s[at..].starts_with(word) {
        Some(at + word.len())
    } else {
        None
    }
}

// White space, then the word.
pub fn ends(s: &[u8], at: usize, word: &[u8]) -> Option<usize>
    requires { at ≤ length s.now }
    ensures { TagIs (λ n. ends n word.now (drop at s.now)) s.now at result }
{
    goes_on(s, skip_white(s, at), word)
}

// A whole tag: the word, white space, `>`.
pub fn whole_tag(s: &[u8], at: usize, word: &[u8]) -> Option<usize>
    requires { at ≤ length s.now }
    ensures { TagIs (λ n. tag n word.now (drop at s.now)) s.now at result }
{
    ends(s, goes_on(s, at, word)?, b">")
}

// "Names are case-sensitive"
pub fn same_bytes(a: &[u8], b: &[u8]) -> bool
    ensures { result ≡ same a.now b.now }
{
    a == b
}

// The value of a hexadigit, 16 for any other byte.
pub fn digit_value(c: u8) -> u8
    ensures { DigitIs c result }
{
    match c {
        48..=57 => c - 48,
        65..=70 => c - 55,
        97..=102 => c - 87,
        _ => 16,
    }
}

// The bytes, at a place with room for them; and the place after them.
pub fn put_bytes(out: &mut [u8], at: usize, word: &[u8]) -> usize
    requires { at + length word.now ≤ length out.old }
    ensures { Wrote out.old at word.now out.new result }
{
    let end = at + word.len();
    out[at..end].copy_from_slice(word);
    end
}
