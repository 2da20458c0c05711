// Bytes are encoded three a turn, as four letters; the last ones are filled up with `=`.
ghost use Rattle.std.specs.Prelude.{◌+◌, ◌<◌, ◌≤◌, [], ◌∷◌, ◌≡◌, length};
ghost use Rattle.std.proofs.lemmas.List.Edits.{sets};
ghost use Rattle.base64_rules.specs.Base64.{encode, letter};
ghost use Rattle.base64_letters.specs.Letters.{letters_of};

// The letter of a value below 64. Tests that only set `r` are made selects.
fn letter_of(v: u8) -> u8
    requires { v < 64 }
    ensures { result ≡ letter v }
{
    let mut r = v + 65;
    if 26 <= v {
        r = v + 71;
    }
    if 52 <= v {
        r = v - 4;
    }
    if v == 62 {
        r = b'+';
    }
    if v == 63 {
        r = b'/';
    }
    r
}

// The letters of three bytes.
fn letters_of(a: u8, b: u8, c: u8) -> [u8; 4]
    ensures { result ≡ letters_of a b c }
{
    [
        letter_of(a / 4),
        letter_of(a % 4 * 16 + b / 16),
        letter_of(b % 16 * 4 + c / 64),
        letter_of(c % 64),
    ]
}

// Letter by letter: tried with an array that is stored, and with `copy_from_slice`, by which encoding takes two and four times as long.
fn put4(out: &mut [u8], o: usize, w: u8, x: u8, y: u8, z: u8)
    requires { o + 4 ≤ length out.old }
    ensures { out.new ≡ sets out.old o (w ∷ x ∷ y ∷ z ∷ []) }
{
    out[o] = w;
    out[o + 1] = x;
    out[o + 2] = y;
    out[o + 3] = z;
}

// Writes the letters of the input, for which there is room.
pub fn write_letters(s: &[u8], out: &mut [u8])
    requires { length (encode s.now) ≤ length out.old }
    ensures { out.new ≡ sets out.old 0 (encode s.now) }
{
    let (threes, rest) = s.as_chunks::<3>();
    let mut o = 0;
    for [a, b, c] in threes {
        let [w, x, y, z] = letters_of(*a, *b, *c);
        put4(out, o, w, x, y, z);
        o += 4;
    }
    match rest {
        [a] => {
            let [w, x, _, _] = letters_of(*a, 0, 0);
            put4(out, o, w, x, b'=', b'=');
        }
        [a, b] => {
            let [w, x, y, _] = letters_of(*a, *b, 0);
            put4(out, o, w, x, y, b'=');
        }
        _ => {}
    }
}
