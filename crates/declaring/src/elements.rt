// A FIELD element: its tags, and what stands between them.
ghost use Rattle.std.specs.Prelude.{◌≡◌, ◌≤◌, drop, length};
ghost use Rattle.fields.specs.Fields.{field_body, read_field};
ghost use Rattle.declaring.specs.Readers.{BodyIs, FieldIs, ValueIn, as_written, at_most_once, end_tag, field_end, values_behind};

use crate::attributes::{Met, read_attributes};
use crate::spans::Span;
use text::{ends, goes_on, skip_white, whole_tag};

// A null value as written, and the place behind what holds it.
#[derive(Clone, Copy)]
struct Body {
    null: Option<Span>,
    next: usize,
}

// A FIELD: its datatype, its arraysize and its null value as written, and the place behind the element.
#[derive(Clone, Copy)]
pub struct Element {
    pub datatype: Span,
    pub arraysize: Option<Span>,
    pub null: Option<Span>,
    pub next: usize,
}

// "may stand once": the value, if there is one, or none where it stands more often.
fn at_most_one(m: Met) -> Option<Option<Span>>
    ensures { result ≡ at_most_once m }
{
    match m {
        Met::Never => Some(None),
        Met::Once(value) => Some(Some(value)),
        Met::Often => None,
    }
}

// What follows `<VALUES`: its attributes and `/>`.
fn read_values(s: &[u8], at: usize) -> Option<Body>
    requires { at ≤ length s.now }
    ensures { BodyIs s.now at (values_behind (drop at s.now)) result }
{
    let attributes = read_attributes(s, at)?;
    let next = ends(s, attributes.next, b"/>")?;
    let null = at_most_one(attributes.tally.null)?;
    Some(Body { null, next })
}

// "and the end tag": the null value that was held before it, and the place behind it.
fn read_end_tag(s: &[u8], at: usize, null: Option<Span>) -> Option<Body>
    requires { (at ≤ length s.now) × ValueIn s.now null }
    ensures { BodyIs s.now at (end_tag (as_written s.now null) (drop at s.now)) result }
{
    let next = whole_tag(s, skip_white(s, at), b"</FIELD")?;
    Some(Body { null, next })
}

// What stands behind a start tag: "at most one VALUES as an empty-element tag, and the end tag".
fn read_body(s: &[u8], at: usize) -> Option<Body>
    requires { at ≤ length s.now }
    ensures { BodyIs s.now at (field_body (drop at s.now)) result }
{
    let Some(i) = ends(s, at, b"<VALUES") else {
        return read_end_tag(s, at, None);
    };
    let values = read_values(s, i)?;
    read_end_tag(s, values.next, values.null)
}

// What stands behind the attributes of a FIELD.
fn read_rest(s: &[u8], at: usize) -> Option<Body>
    requires { at ≤ length s.now }
    ensures { BodyIs s.now at (field_end (drop at s.now)) result }
{
    if let Some(next) = ends(s, at, b"/>") {
        return Some(Body { null: None, next });
    }
    read_body(s, ends(s, at, b">")?)
}

pub fn read_field(s: &[u8], at: usize) -> Option<Element>
    requires { at ≤ length s.now }
    ensures { FieldIs s.now at (read_field (drop at s.now)) result }
{
    let attributes = read_attributes(s, goes_on(s, at, b"<FIELD")?)?;
    let body = read_rest(s, attributes.next)?;
    // "`datatype` is needed; `datatype`, `arraysize` [..] may stand once"
    let datatype = at_most_one(attributes.tally.datatype)??;
    let arraysize = at_most_one(attributes.tally.arraysize)?;
    Some(Element {
        datatype,
        arraysize,
        null: body.null,
        next: body.next,
    })
}
