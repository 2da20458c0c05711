// The elements of a text are read: of a cell of TABLEDATA from its first character on, or of a plain part of a text.
#![tactic(auto)]

mod bits;
mod chars;
mod elements;
mod kinds;
mod numerals;
mod pieces;
mod truths;

pub use character_reading::characters::Source;
pub use elements::Held;
pub use kinds::{plain_elements, read_elements};
