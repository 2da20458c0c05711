// What integers are: the kinds of them. What their bytes and words mean is in specs/; the code stands in integers, decimals and words.
#![tactic(auto)]

ghost use Rattle.std.specs.Prelude.{◌≡◌, ◌≤◌};
ghost use Rattle.number.specs.Clauses.{shape_as, size};
ghost use Rattle.table.specs.Shape.{shape};

use table::Kind;

// The kinds of integers, and only they: of these each has a width, and a sign or none.
#[derive(Clone, Copy)]
pub enum Integer {
    UnsignedByte,
    Short,
    Int,
    Long,
}

// "1, 2, 4, 8 bytes"
pub fn integer_bytes(kind: Integer) -> usize
    ensures { (result ≡ size kind) × (result ≤ 8) }
{
    match kind {
        Integer::UnsignedByte => 1,
        Integer::Short => 2,
        Integer::Int => 4,
        Integer::Long => 8,
    }
}

// The kinds by what their elements are, as the definitions look at them (`Shape`): four cases in place of seven.
#[derive(Clone, Copy)]
pub enum Elements {
    Truths,
    Bits,
    Text,
    Whole(Integer),
}

pub fn elements_of(kind: Kind) -> Elements
    ensures { shape_as result ≡ shape kind }
{
    match kind {
        Kind::Boolean => Elements::Truths,
        Kind::Bit => Elements::Bits,
        Kind::UnsignedByte => Elements::Whole(Integer::UnsignedByte),
        Kind::Short => Elements::Whole(Integer::Short),
        Kind::Int => Elements::Whole(Integer::Int),
        Kind::Long => Elements::Whole(Integer::Long),
        Kind::Char => Elements::Text,
    }
}
