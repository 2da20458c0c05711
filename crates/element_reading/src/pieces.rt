// A word of a text, read letter by letter.
ghost use Rattle.std.specs.Prelude.{◌++◌, ◌∷◌, ◌≤◌, List, [], ℕ, drop, length};
ghost use Rattle.element_reading.specs.Words.{PieceIs};

use character_reading::characters::{Item, Source, character_at};
use table::Reason;
use text::is_white;

// What a word's letters come to, one after the other.
pub(crate) trait Letters: Copy {
    ghost stands: { Self → List ℕ → Type 0 };

    fn none() -> Self
        ensures { stands result [] };

    fn and(self, c: u32) -> Self
        ensures { (w : List ℕ) → stands self w → stands result (w ++ (c ∷ [])) };
}

// A word up to white space, or up to the end of the text, as what reads it holds it; and the place after that.
#[derive(Clone, Copy)]
pub(crate) enum Piece<W> {
    Cut(W, usize),
    Last(W, usize),
}

// The word at a place.
pub(crate) fn next_piece<W: Letters>(
    s: &[u8],
    from: usize,
    source: Source,
) -> Result<Piece<W>, Reason>
    requires { from ≤ length s.now }
    ensures { PieceIs W.stands source s.now from result }
{
    let mut i = from;
    let mut word = W::none();
    loop {
        match character_at(s, i, source)? {
            Item::End(next) => return Ok(Piece::Last(word, next)),
            Item::Code(c, next) => {
                if is_white(c) {
                    return Ok(Piece::Cut(word, next));
                }
                word = word.and(c);
                i = next;
            }
        }
    }
}
