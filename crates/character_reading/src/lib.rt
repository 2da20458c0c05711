// The characters of a text, one after the other: in a cell of TABLEDATA with their references expanded, or in a plain part of a text.
#![tactic(auto)]

pub mod characters;
mod references;
