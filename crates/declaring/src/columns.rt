// The column that a FIELD declares: its kind, its length, its null value.
ghost use Rattle.std.specs.Prelude.{◌≡◌};
ghost use Rattle.tabledata.specs.TableData.{text_elements};
ghost use Rattle.table.specs.Shape.{shape};
ghost use Rattle.fields.specs.Fields.{before_star, bounded_len, judge, kind_of, kinds, len_before, len_of, length_of, null_of};
ghost use Rattle.declaring.specs.Readers.{ElementIn, ValueIn, as_written, element_of, fixed_len, judged, null_of_scalar, null_read, one_null, read_as};

use crate::elements::Element;
use crate::spans::Span;
use element_reading::plain_elements;
use number::{Elements, elements_of};
use table::{Column, Kind, Len, Reason, column_of, is_scalar};
use text::same_bytes;

// "Carried datatypes: boolean, bit, unsignedByte, short, int, long, char."
const KINDS: [(&[u8], Kind); 7] = [
    (b"boolean", Kind::Boolean),
    (b"bit", Kind::Bit),
    (b"unsignedByte", Kind::UnsignedByte),
    (b"short", Kind::Short),
    (b"int", Kind::Int),
    (b"long", Kind::Long),
    (b"char", Kind::Char),
];

// What an attribute's value says, or none where it says nothing.
fn kind_of(t: &[u8]) -> Option<Kind>
    ensures { kind_of kinds t.now ≡ read_as 2 result }
{
    for (name, kind) in KINDS {
        if same_bytes(name, t) {
            return Some(kind);
        }
    }
    None
}

// "`n` is one to four digits, the first not 0, at most 4096."
fn length_of(t: &[u8]) -> Option<usize>
    ensures { length_of t.now ≡ read_as 3 result }
{
    if t.is_empty() || 4 < t.len() || t[0] == b'0' {
        return None;
    }
    let mut n: usize = 0;
    for &c in t {
        if !c.is_ascii_digit() {
            return None;
        }
        n = n * 10 + (c - b'0') as usize;
    }
    if n <= table::MOST_ELEMENTS {
        return Some(n);
    }
    None
}

fn fixed_len(t: &[u8]) -> Option<Len>
    ensures { fixed_len t.now ≡ read_as 3 result }
{
    Some(Len::Fixed(length_of(t)?))
}

fn bounded_len(t: &[u8]) -> Option<Len>
    ensures { bounded_len t.now ≡ read_as 3 result }
{
    if t.is_empty() {
        return Some(Len::Free);
    }
    Some(Len::Bounded(length_of(t)?))
}

fn len_of(t: &[u8]) -> Option<Len>
    ensures { len_before (before_star t.now) t.now ≡ read_as 3 result }
{
    let (&last, before) = t.split_last()?;
    if last == b'*' {
        return bounded_len(before);
    }
    fixed_len(t)
}

fn read_len(s: &[u8], value: Option<Span>) -> Option<Len>
    requires { ValueIn s.now value }
    ensures { len_of (as_written s.now value) ≡ read_as 3 result }
{
    match value {
        None => Some(Len::Fixed(1)),
        Some(v) => len_of(&s[v.start..v.end]),
    }
}

// "read as a cell of that kind; an empty one is refused", and so is more than one element.
fn null_value(t: &[u8], kind: Kind) -> Result<Option<i64>, Reason>
    ensures { one_null (text_elements (shape kind) t.now) ≡ null_read result }
{
    let mut element = [0i64; 1];
    match plain_elements(t, kind, &mut element) {
        Ok(1) => Ok(Some(element[0])),
        _ => Err(Reason::NullValue),
    }
}

fn null_of(t: &[u8], kind: Kind) -> Result<Option<i64>, Reason>
    ensures { null_of_scalar (shape kind) t.now ≡ null_read result }
{
    match elements_of(kind) {
        Elements::Truths | Elements::Bits | Elements::Text => Ok(None),
        Elements::Whole(_) => null_value(t, kind),
    }
}

// "`null` counts only on scalar integer columns" "Elsewhere it is skipped."
fn read_null(s: &[u8], value: Option<Span>, kind: Kind, scalar: bool) -> Result<Option<i64>, Reason>
    requires { ValueIn s.now value }
    ensures { null_of (shape kind) scalar (as_written s.now value) ≡ null_read result }
{
    match value {
        Some(v) if scalar => null_of(&s[v.start..v.end], kind),
        _ => Ok(None),
    }
}

// "in each one shape (through its end), 2, 3, 4"
pub fn judge(s: &[u8], e: Element) -> Result<Column, Reason>
    requires { ElementIn s.now e }
    ensures { judge (element_of s.now e) ≡ judged result }
{
    let kind = kind_of(&s[e.datatype.start..e.datatype.end]).ok_or(Reason::Datatype)?;
    let len = read_len(s, e.arraysize).ok_or(Reason::Arraysize)?;
    let scalar = is_scalar(column_of(kind, len, None));
    let null = read_null(s, e.null, kind, scalar)?;
    Ok(column_of(kind, len, null))
}
