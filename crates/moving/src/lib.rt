// What moving a cell from the input into a row's buffer means. A row is made in a buffer of its own and goes to the output whole, once all of it is
// known to be good and to fit. What stands in that buffer behind the place reached does not count. None is what is left to the careful way.
#![tactic(auto)]

// A cell that was moved: the place after it in the input, the place after its bytes in the buffer, and whether it is null.
#[derive(Clone, Copy)]
pub struct Moved {
    pub next: usize,
    pub end: usize,
    pub null: bool,
}

// The elements of a cell: how many they are, the place after them in the input, and the place after their bytes in the buffer.
#[derive(Clone, Copy)]
pub struct Content {
    pub count: usize,
    pub next: usize,
    pub end: usize,
}

// One element by its value, and the place after it in the input.
#[derive(Clone, Copy)]
pub struct One {
    pub value: i64,
    pub next: usize,
}
