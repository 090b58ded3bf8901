// The two states of a sheet, and the refusals of its calls.
ghost use Rattle.std.specs.Prelude.{◌≡◌, Some};
ghost use Rattle.sheet.specs.Refusals.{refusal_number, refusal_name, shown_refusal, text_refusal};

use crate::size::Size;
use std::fmt;

// A state is plain numbers, moved and never copied.
#[derive(Drop)]
pub struct Draft {
    pub(crate) size: Size,
}

#[derive(Drop)]
pub struct Settled {
    pub(crate) size: Size,
}

// Why a call was refused.
#[derive(Clone, Copy, PartialEq, Eq, Debug)]
pub enum Refusal {
    // stages not 1 to 64, or marks over 16
    Size = 1,
    // too few values
    Stretch = 2,
    // under 64 line words
    Words = 3,
    // a stage not below the number of stages
    State = 4,
    // a mark not below the number of marks
    Mark = 5,
    // no value has the number
    Value = 6,
    // a word that breaks the line layout, or names no mark or no earlier line
    Line = 7,
    // more than 64 lines
    Full = 8,
    // a read of no such line
    Answer = 9,
    // a logic of more than 4,096 values
    Logic = 10,
    // not exactly the sheet's number of distinct names
    Names = 15,
    // a text over 1,024 bytes, or with no tree
    Text = 16,
}

impl Refusal {
    // The number that reports give.
    pub fn number(self) -> u8
        ensures { result ≡ refusal_number self }
    {
        self as u8
    }

    // The name that reports give.
    pub fn name(self) -> &'static str
        ensures { result.now ≡ refusal_name self }
    {
        match self {
            Refusal::Size => "Size",
            Refusal::Stretch => "Stretch",
            Refusal::Words => "Words",
            Refusal::State => "State",
            Refusal::Mark => "Mark",
            Refusal::Value => "Value",
            Refusal::Line => "Line",
            Refusal::Full => "Full",
            Refusal::Answer => "Answer",
            Refusal::Logic => "Logic",
            Refusal::Names => "Names",
            Refusal::Text => "Text",
        }
    }
}

// A refusal by its number and name, as `5 Mark`.
impl fmt::Display for Refusal {
    ghost output = { λ r. Some (shown_refusal r) };

    fn fmt<W: fmt::Write>(&self, f: &mut fmt::Formatter<W>) -> fmt::Result {
        let number = self.number();
        let name = self.name();
        write!(f, "{number} {name}")
    }
}

// A refusal of the layer that reads words and texts, as the sheet's.
impl From<lines::Refusal> for Refusal {
    ghost from_gives = { λ why r. r ≡ text_refusal why };

    fn from(why: lines::Refusal) -> Refusal {
        match why {
            lines::Refusal::Line => Refusal::Line,
            lines::Refusal::Full => Refusal::Full,
            lines::Refusal::Names => Refusal::Names,
            lines::Refusal::Text => Refusal::Text,
        }
    }
}
