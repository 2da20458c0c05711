// The attributes of a tag. A value is known by where it stands.
ghost use Rattle.std.specs.Prelude.{◌≡◌, ◌<◌, ◌≤◌, drop, length};
ghost use Rattle.fields.specs.Fields.{read_value};
ghost use Rattle.declaring.specs.Readers.{AttributesIs, QuotedIs, assigned, is_quote, met_again, with_attribute};

use crate::spans::{Class, Span, span_end};
use text::{ends, same_bytes, skip_white};

// How often an attribute was met, and its value if once.
#[derive(Clone, Copy)]
pub enum Met {
    Never,
    Once(Span),
    Often,
}

// The attributes that count in some tag; all others are skipped.
#[derive(Clone, Copy)]
pub struct Tally {
    pub datatype: Met,
    pub arraysize: Met,
    pub null: Met,
}

// The attributes of a tag, and the place behind them.
#[derive(Clone, Copy)]
pub struct Attributes {
    pub tally: Tally,
    pub next: usize,
}

fn is_quote(c: u8) -> bool
    ensures { result ≡ is_quote c }
{
    match c {
        34 | 39 => true,
        _ => false,
    }
}

// The value that a quote at `from` opens.
fn read_quoted(s: &[u8], from: usize) -> Option<Span>
    requires { from < length s.now }
    ensures { QuotedIs s.now from (read_value (drop from s.now)) result }
{
    let quote = s[from];
    if !is_quote(quote) {
        return None;
    }
    let start = from + 1;
    let end = span_end(s, start, Class::Quoted(quote));
    if end < s.len() && s[end] == quote {
        return Some(Span { start, end });
    }
    None
}

// `=` and the value behind it.
fn read_value(s: &[u8], at: usize) -> Option<Span>
    requires { at ≤ length s.now }
    ensures { QuotedIs s.now at (assigned (drop at s.now)) result }
{
    let from = skip_white(s, ends(s, at, b"=")?);
    if from < s.len() {
        return read_quoted(s, from);
    }
    None
}

fn met_again(m: Met, counts: bool, value: Span) -> Met
    ensures { result ≡ met_again counts m value }
{
    if !counts {
        return m;
    }
    match m {
        Met::Never => Met::Once(value),
        Met::Once(_) | Met::Often => Met::Often,
    }
}

fn with_attribute(t: Tally, name: &[u8], value: Span) -> Tally
    ensures { result ≡ with_attribute t name.now value }
{
    Tally {
        datatype: met_again(t.datatype, same_bytes(b"datatype", name), value),
        arraysize: met_again(t.arraysize, same_bytes(b"arraysize", name), value),
        null: met_again(t.null, same_bytes(b"null", name), value),
    }
}

pub fn read_attributes(s: &[u8], from: usize) -> Option<Attributes>
    requires { from ≤ length s.now }
    ensures { AttributesIs s.now from result }
{
    let mut at = from;
    let mut tally = Tally {
        datatype: Met::Never,
        arraysize: Met::Never,
        null: Met::Never,
    };
    loop {
        let name = skip_white(s, at);
        let name_end = span_end(s, name, Class::Name);
        if name == at || name_end == name {
            return Some(Attributes { tally, next: at });
        }
        let value = read_value(s, name_end)?;
        tally = with_attribute(tally, &s[name..name_end], value);
        at = value.end + 1;
    }
}
