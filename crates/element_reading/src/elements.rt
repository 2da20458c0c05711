// A text's elements: read so far, they stand in the scratch as far as it has room, and are counted on.
ghost use Rattle.element_reading.specs.Words.{judged_as};
ghost use Rattle.std.specs.Prelude.{pos, set, ◌≡◌};

use table::Reason;

// How many elements were read, and the place after the text.
#[derive(Clone, Copy)]
pub struct Held {
    pub count: usize,
    pub next: usize,
}

// A text whose words were all read, up to the place `next`, with what the last of them adds: "in one cell the first bad element decides".
pub(crate) fn judged(
    bad: Option<Reason>,
    added: Result<usize, Reason>,
    next: usize,
) -> Result<Held, Reason>
    ensures { result ≡ judged_as bad added next }
{
    match bad {
        Some(reason) => Err(reason),
        None => Ok(Held {
            count: added?,
            next,
        }),
    }
}

// An element is stored where there is room for it. (Scratch and count go side by side: in a struct each clause would speak of the scratch through a
// borrow in a field, which is no plainer.)
pub(crate) fn put(scratch: &mut [i64], count: usize, x: i64)
    ensures { scratch.new ≡ set scratch.old count x }
{
    if count < scratch.len() {
        scratch[count] = x;
    }
}

// A code, a bit or a truth as an element.
pub(crate) fn as_element(c: u32) -> i64
    ensures { result ≡ pos c }
{
    c as i64
}
