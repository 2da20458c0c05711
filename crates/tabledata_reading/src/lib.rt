// A cell of TABLEDATA is read, and what it shows.
#![tactic(auto)]

mod cells;
mod openings;

pub use cells::read_text;
