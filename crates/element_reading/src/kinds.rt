// A text's elements, by their kind.
ghost use Rattle.std.specs.Prelude.{◌≤◌, drop, length};
ghost use Rattle.tabledata.specs.TableData.{text_elements};
ghost use Rattle.element_reading.specs.Elements.{CountsElements, TakesElements, elements_from};
ghost use Rattle.table.specs.Shape.{shape};

use super::bits::bits;
use super::chars::chars;
use super::elements::Held;
use super::numerals::integers;
use super::truths::truths;
use character_reading::characters::Source;
use number::{Elements, elements_of};
use table::{Kind, Reason};

// The elements from a place on, by their kind.
pub fn read_elements(
    s: &[u8],
    from: usize,
    source: Source,
    kind: Kind,
    scratch: &mut [i64],
) -> Result<Held, Reason>
    requires { from ≤ length s.now }
    ensures { TakesElements (elements_from source (shape kind) (drop from s.now)) s.now from scratch.old scratch.new result }
{
    match elements_of(kind) {
        Elements::Truths => truths(s, from, source, scratch),
        Elements::Bits => bits(s, from, source, scratch),
        Elements::Whole(integer) => integers(s, from, source, integer, scratch),
        Elements::Text => chars(s, from, source, scratch),
    }
}

// The elements of a plain part of a text, as those of a cell whose characters it has.
pub fn plain_elements(part: &[u8], kind: Kind, scratch: &mut [i64]) -> Result<usize, Reason>
    ensures { CountsElements (text_elements (shape kind) part.now) scratch.old scratch.new result }
{
    let held = read_elements(part, 0, Source::Plain, kind, scratch)?;
    Ok(held.count)
}
