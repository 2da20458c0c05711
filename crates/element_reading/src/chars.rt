// Char cells.
ghost use Rattle.std.specs.Prelude.{◌≤◌, drop, length};
ghost use Rattle.table.specs.Shape.{Text};
ghost use Rattle.element_reading.specs.Elements.{Copied, TakesElements, elements_from};

use super::elements::{Held, as_element, put};
use character_reading::characters::{Item, Source, character_at, spoiled};
use table::Reason;
use tabledata::{is_plain, is_text};

// Characters that stand for themselves, as long as there are some and they have room: the place after them. (A `for` would add the second index up
// from the first, and could run over: no plainer.)
fn copy_plain(s: &[u8], from: usize, scratch: &mut [i64], count: usize) -> usize
    requires { from ≤ length s.now }
    ensures { Copied s.now from count scratch.old scratch.new result }
{
    let mut i = from;
    let mut k = count;
    while i < s.len() {
        if scratch.len() <= k {
            return i;
        }
        let c = s[i] as u32;
        if !is_plain(c) {
            return i;
        }
        scratch[k] = as_element(c);
        k += 1;
        i += 1;
    }
    i
}

// The elements of a char cell, from its first character on.
pub(crate) fn chars(
    s: &[u8],
    from: usize,
    source: Source,
    scratch: &mut [i64],
) -> Result<Held, Reason>
    requires { from ≤ length s.now }
    ensures { TakesElements (elements_from source Text (drop from s.now)) s.now from scratch.old scratch.new result }
{
    let mut i = from;
    let mut count = 0;
    loop {
        let j = copy_plain(s, i, scratch, count);
        count += j - i;
        match character_at(s, j, source)? {
            Item::End(next) => return Ok(Held { count, next }),
            Item::Code(c, next) => {
                if !is_text(c) {
                    return Err(spoiled(s, next, source));
                }
                put(scratch, count, as_element(c));
                count += 1;
                i = next;
            }
        }
    }
}
