// Bit cells: "`0` and `1` only, nothing between."
ghost use Rattle.std.specs.Prelude.{◌≤◌, drop, length};
ghost use Rattle.table.specs.Shape.{Bits};
ghost use Rattle.element_reading.specs.Elements.{BitIs, TakesElements, elements_from};

use super::elements::{Held, as_element, put};
use character_reading::characters::{Item, Source, character_at, spoiled};
use table::Reason;
use text::is_white;

// A bit, if it is one: nothing is behind the end of the word.
fn bit_of(c: u32, closed: bool) -> Option<u32>
    ensures { BitIs closed c result }
{
    match c {
        48 if !closed => Some(0),
        49 if !closed => Some(1),
        _ => None,
    }
}

// The elements of a bit cell: one word, with white space around it.
pub(crate) fn bits(
    s: &[u8],
    from: usize,
    source: Source,
    scratch: &mut [i64],
) -> Result<Held, Reason>
    requires { from ≤ length s.now }
    ensures { TakesElements (elements_from source Bits (drop from s.now)) s.now from scratch.old scratch.new result }
{
    let mut i = from;
    let mut count = 0;
    let mut closed = false;
    loop {
        match character_at(s, i, source)? {
            Item::End(next) => return Ok(Held { count, next }),
            Item::Code(c, next) => {
                i = next;
                if is_white(c) {
                    closed = 0 < count;
                    continue;
                }
                let Some(bit) = bit_of(c, closed) else {
                    return Err(spoiled(s, next, source));
                };
                put(scratch, count, as_element(bit));
                count += 1;
            }
        }
    }
}
