// What two inputs show differently: no code, but for the answer.
#![tactic(auto)]

// The number, row, column and input of a refusal, all 0 where both inputs read; how many cells differ; the rows that each has beyond the other; and
// how many places were filled.
#[derive(Clone, Copy)]
pub struct Comparison {
    pub number: u64,
    pub row: u64,
    pub column: u64,
    pub input: u64,
    pub differing: u64,
    pub first: u64,
    pub second: u64,
    pub places: u64,
}
