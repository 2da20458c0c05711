// Parts of an input, each converted by itself, and how far they are joined: no code, but for the two records.
#![tactic(auto)]

// A part: where in the input it begins, its length, the room that it was given, and the six numbers that its call answered.
#[derive(Clone, Copy)]
pub struct Part {
    pub start: u64,
    pub length: u64,
    pub room: u64,
    pub number: u64,
    pub row: u64,
    pub column: u64,
    pub rows: u64,
    pub bytes: u64,
    pub place: u64,
}

// How far parts are joined: the six numbers of one call on the whole, as far as it has come; how many parts were used; and 1 where that call has
// ended, 0 where it goes on from the place.
#[derive(Clone, Copy)]
pub struct Joined {
    pub number: u64,
    pub row: u64,
    pub column: u64,
    pub rows: u64,
    pub bytes: u64,
    pub place: u64,
    pub parts: u64,
    pub ended: u64,
}
