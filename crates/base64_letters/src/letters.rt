// Base64's letters and their values, as a table.
ghost use Rattle.std.specs.Prelude.{◌<◌, ◌≡◌};
ghost use Rattle.base64_letters.specs.Letters.{TableIs, letter_value};

// In place of a value where there is no letter: over every number that four letters make, so that one test tells whether all four are
// letters.
pub const NONE: u32 = 16_777_216;

// `=` is no letter either.
const PAD: u32 = NONE;

// Each character's value, at the character's place.
const VALUES: [u32; 128] = [
    NONE, NONE, NONE, NONE, NONE, NONE, NONE, NONE, NONE, NONE, NONE, NONE, NONE, NONE, NONE, NONE,
    NONE, NONE, NONE, NONE, NONE, NONE, NONE, NONE, NONE, NONE, NONE, NONE, NONE, NONE, NONE, NONE,
    NONE, NONE, NONE, NONE, NONE, NONE, NONE, NONE, NONE, NONE, NONE, 62, NONE, NONE, NONE, 63, 52,
    53, 54, 55, 56, 57, 58, 59, 60, 61, NONE, NONE, NONE, PAD, NONE, NONE, NONE, 0, 1, 2, 3, 4, 5,
    6, 7, 8, 9, 10, 11, 12, 13, 14, 15, 16, 17, 18, 19, 20, 21, 22, 23, 24, 25, NONE, NONE, NONE,
    NONE, NONE, NONE, 26, 27, 28, 29, 30, 31, 32, 33, 34, 35, 36, 37, 38, 39, 40, 41, 42, 43, 44,
    45, 46, 47, 48, 49, 50, 51, NONE, NONE, NONE, NONE, NONE,
];

// The table of each character's value.
pub fn letter_table() -> [u32; 128]
    ensures { TableIs result }
{
    VALUES
}

// A character's value, by the table.
pub fn letter_value(c: u8, values: &[u32; 128]) -> u32
    requires { (c < 128) × TableIs values.now }
    ensures { result ≡ letter_value c }
{
    let place = c as usize;
    values[place]
}

// The table with what it says. It is made once in a call and lent from there on: named where it is used it would be made anew at each use.
#[derive(Clone, Copy)]
pub struct LetterTable {
    pub values: [u32; 128],
    pub ghost is_table: { TableIs values },
}

impl LetterTable {
    pub fn new() -> Self
        ensures { TableIs result.values }
    {
        LetterTable {
            values: letter_table(),
        }
    }

    // A character's value.
    pub fn value(&self, c: u8) -> u32
        requires { c < 128 }
        ensures { result ≡ letter_value c }
    {
        letter_value(c, &self.values)
    }
}
