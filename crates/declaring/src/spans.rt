// Spans of bytes that stand together at a place of a text.
ghost use Rattle.std.specs.Prelude.{◌≡◌, ◌≤◌, length};
ghost use Rattle.fields.specs.Fields.{is_name_byte};
ghost use Rattle.declaring.specs.Readers.{SpanEnd, in_class};

// A part of the text, by where it begins and where it ends.
#[derive(Clone, Copy)]
pub struct Span {
    pub start: usize,
    pub end: usize,
}

// Bytes that stand together: a name, or what a quote holds.
#[derive(Clone, Copy)]
pub enum Class {
    Name,
    Quoted(u8),
}

fn is_name_byte(c: u8) -> bool
    ensures { result ≡ is_name_byte c }
{
    match c {
        45 | 46 | 58 | 95 => true,
        48..=57 | 65..=90 | 97..=122 => true,
        _ => false,
    }
}

fn belongs(class: Class, c: u8) -> bool
    ensures { result ≡ in_class class c }
{
    match class {
        Class::Name => is_name_byte(c),
        Class::Quoted(quote) => {
            if c == quote {
                return false;
            }
            c != 60
        }
    }
}

// The first place from `from` on whose byte does not belong to the class. A call, so that its loop has the registers to itself.
#[inline(never)]
pub fn span_end(s: &[u8], from: usize, class: Class) -> usize
    requires { from ≤ length s.now }
    ensures { SpanEnd class s.now from result }
{
    for i in from..s.len() {
        if !belongs(class, s[i]) {
            return i;
        }
    }
    s.len()
}
