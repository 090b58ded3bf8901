ghost use Rattle.std.specs.Prelude.{◌≡◌, Some};
ghost use Rattle.showtable.specs.declared.fault.Fault.TheVariants.{Memory, Refused};
ghost use Rattle.showtable.specs.Shown.{shown_fault};

use scale::Refusal;
use std::alloc::AllocError;
use std::fmt;

// Why no table was loaded.
#[derive(Clone, Copy)]
pub enum Fault {
    // there is no memory for the words
    Memory,
    // the last word is cut short
    CutShort,
    // the words make no logic
    Refused(Refusal),
}

impl From<AllocError> for Fault {
    ghost from_gives = { λ _ fault. fault ≡ Memory };

    fn from(_: AllocError) -> Self {
        Self::Memory
    }
}

impl From<Refusal> for Fault {
    ghost from_gives = { λ why fault. fault ≡ Refused why };

    fn from(why: Refusal) -> Self {
        Self::Refused(why)
    }
}

// A refusal by its number and name; a word that is cut short has those of a bad file word.
impl fmt::Display for Fault {
    ghost output = { λ fault. Some (shown_fault fault) };

    fn fmt<W: fmt::Write>(&self, f: &mut fmt::Formatter<W>) -> fmt::Result {
        match self {
            Fault::Memory => write!(f, "out of memory"),
            Fault::CutShort => write!(f, "17 Word"),
            Fault::Refused(why) => write!(f, "{why}"),
        }
    }
}
