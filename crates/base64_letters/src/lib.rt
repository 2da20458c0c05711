// Base64's letters: the value of each, and bytes written as letters.
#![tactic(auto)]

pub mod encoding;
pub mod letters;
