// A text's characters: in a cell up to the end tag, with their references expanded and each line end as one 10; in a plain part each byte as it
// stands.
ghost use Rattle.std.specs.Prelude.{◌+◌, ◌<◌, ◌≤◌, drop, length, [], ◌∷◌, ◌≡◌, Ok};
ghost use Rattle.table.specs.Reasons.{number_of};
ghost use Rattle.tabledata.specs.TableData.{characters, plain, reference};
ghost use Rattle.character_reading.specs.Characters.{ItemIs, NameIs, characters_of, ended, spoiled_number};
ghost use Rattle.character_reading.specs.declared.characters.Source.TheVariants.{Markup};

use super::references::expand;
use table::Reason;
use text::whole_tag;

// Where characters are read: in the markup of a cell, or in a plain part of a text.
#[derive(Clone, Copy)]
pub enum Source {
    Markup,
    Plain,
}

// A character with its reference expanded and the place after it, or the place after the end of the text.
#[derive(Clone, Copy)]
pub enum Item {
    Code(u32, usize),
    End(usize),
}

// The place of the `;` that ends a reference.
fn semicolon(s: &[u8], from: usize) -> Option<usize>
    requires { from ≤ length s.now }
    ensures { NameIs s.now from result }
{
    for i in from..s.len() {
        if s[i] == b';' {
            return Some(i);
        }
    }
    None
}

// What a reference means, from after its `&`. A call, so that what most characters take needs no room on the stack.
#[inline(never)]
fn refer(s: &[u8], from: usize) -> Result<Item, Reason>
    requires { from ≤ length s.now }
    ensures { ItemIs Markup (characters (reference []) (drop from s.now)) s.now from result }
{
    let end = semicolon(s, from).ok_or(Reason::Markup)?;
    let code = expand(&s[from..end]).ok_or(Reason::Markup)?;
    Ok(Item::Code(code, end + 1))
}

// "In a cell `<` may only begin `</TD`"
fn end_tag(s: &[u8], at: usize) -> Result<Item, Reason>
    requires { at ≤ length s.now }
    ensures { ItemIs Markup (ended (drop at s.now)) s.now at result }
{
    let next = whole_tag(s, at, b"</TD").ok_or(Reason::Markup)?;
    Ok(Item::End(next))
}

// XML 1.0, 2.11: a literal 13, with the 10 behind it where there is one, is one 10.
fn line_end(s: &[u8], at: usize) -> Item
    requires { at < length s.now }
    ensures { ItemIs Markup (characters plain (13 ∷ drop (at + 1) s.now)) s.now at (Ok result) }
{
    let next = at + 1;
    if next < s.len() && s[next] == 10 {
        return Item::Code(10, next + 1);
    }
    Item::Code(10, next)
}

// The character at a place, or where the text ends: only markup has tags, references and line ends, and an end that is asked for. In its callers'
// loops, since as a call it would hand each character back through memory.
#[inline(always)]
pub fn character_at(s: &[u8], at: usize, source: Source) -> Result<Item, Reason>
    requires { at ≤ length s.now }
    ensures { ItemIs source (characters_of source (drop at s.now)) s.now at result }
{
    if s.len() <= at {
        return match source {
            Source::Markup => Err(Reason::Markup),
            Source::Plain => Ok(Item::End(at)),
        };
    }
    match (source, s[at]) {
        (Source::Markup, b'<') => end_tag(s, at),
        (Source::Markup, b'&') => refer(s, at + 1),
        (Source::Markup, 13) => Ok(line_end(s, at)),
        (_, c) => Ok(Item::Code(c as u32, at + 1)),
    }
}

// A text that has a character or an element it should not have: 10 is still to be looked for through its end.
pub fn spoiled(s: &[u8], from: usize, source: Source) -> Reason
    requires { from ≤ length s.now }
    ensures { number_of result ≡ spoiled_number (characters_of source (drop from s.now)) }
{
    let mut i = from;
    loop {
        match character_at(s, i, source) {
            Err(reason) => return reason,
            Ok(Item::End(_)) => return Reason::NoElement,
            Ok(Item::Code(_, next)) => i = next,
        }
    }
}
