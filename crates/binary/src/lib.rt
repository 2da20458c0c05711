// The definitions of cells of BINARY and BINARY2 and their laws; of code only what reading (crate binary_reading) and writing (crate
// binary_writing) both ask.
#![tactic(auto)]

ghost use Rattle.std.specs.Prelude.{◌≡◌, ◌≤◌};
ghost use Rattle.table.specs.Cell.{most_elements};
ghost use Rattle.table.specs.Shape.{shape};
ghost use Rattle.binary.specs.Binary.{content_bytes};

use table::Kind;

// The bytes of n elements. By the kinds themselves, with each width a numeral: it is asked several times a cell.
pub fn content_bytes(kind: Kind, n: usize) -> usize
    requires { n ≤ most_elements }
    ensures { (result ≡ content_bytes (shape kind) n) × (result ≤ 32768) }
{
    match kind {
        Kind::Boolean => n,
        Kind::Bit => (n + 7) / 8,
        Kind::UnsignedByte => n,
        Kind::Short => n * 2,
        Kind::Int => n * 4,
        Kind::Long => n * 8,
        Kind::Char => n,
    }
}
