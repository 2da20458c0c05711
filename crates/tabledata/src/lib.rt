// The definitions of TABLEDATA and their laws; of code only what reading (crate tabledata_reading) and writing (crate tabledata_writing) both
// ask of a character.
#![tactic(auto)]

ghost use Rattle.std.specs.Prelude.{◌≡◌};
ghost use Rattle.tabledata.specs.Clauses.{is_plain};
ghost use Rattle.tabledata.specs.TableData.{is_text};

pub fn is_text(c: u32) -> bool
    ensures { result ≡ is_text c }
{
    match c {
        9 | 10 | 13 | 32..=127 => true,
        _ => false,
    }
}

// A character that stands for itself.
pub fn is_plain(c: u32) -> bool
    ensures { result ≡ is_plain c }
{
    match c {
        38 | 60 => false,
        32..=127 => true,
        _ => false,
    }
}
