// Line words: a sheet keeps each node of a formula as one 32-bit word, and this crate writes and reads such words.
// Bits 31-28 are 4, bits 27-20 the operator's number, bits 19-16 zero, bits 15-8 the left field, bits 7-0 the right one.
#![tactic(auto)]

ghost use Rattle.std.specs.Prelude.{◌≡◌, ℕ, ◌+◌, ◌*◌, ◌<◌, Some, Decides};
ghost use Rattle.lines.specs.Word.{unary_number, binary_number, UnaryNumbered, BinaryNumbered, Fielded, word_of, FitsAt, WellFormed, ReadsAs, Undoes};
ghost use Rattle.lines.specs.Refusals.{number_of, name_of, shown_refusal};
ghost use Rattle.lines.specs.Shown.{unary_name, binary_name, shown_as};

use std::fmt;

// The operators that take one earlier line, with their numbers.
#[derive(Clone, Copy, PartialEq, Eq, Debug)]
pub enum Unary {
    Not = 3,
    Ex = 7,
    Ax = 8,
    Ef = 9,
    Af = 10,
    Eg = 11,
    Ag = 12,
}

// The operators that take two earlier lines, with their numbers.
#[derive(Clone, Copy, PartialEq, Eq, Debug)]
pub enum Binary {
    And = 4,
    Or = 5,
    Implies = 6,
    Eu = 13,
    Au = 14,
    Er = 15,
    Ar = 16,
}

// What a line says: a constant, a mark by its number, or an operator over earlier lines by their numbers.
#[derive(Clone, Copy, PartialEq, Eq, Debug)]
pub enum Line {
    False,
    True,
    Mark(u8),
    One(Unary, u8),
    Two(Binary, u8, u8),
}

// Why a word or a text is not taken, with the numbers that reports give.
#[derive(Clone, Copy, PartialEq, Eq, Debug)]
pub enum Refusal {
    // the word breaks the layout, or names no mark or no earlier line
    Line = 7,
    // more lines than remain
    Full = 8,
    // not exactly the sheet's number of distinct names
    Names = 15,
    // the text is too long or has no tree
    Text = 16,
}

impl Refusal {
    // The refusal's number.
    pub fn number(self) -> u8
        ensures { result ≡ number_of self }
    {
        self as u8
    }

    // The refusal's name.
    pub fn name(self) -> &'static str
        ensures { result.now ≡ name_of self }
    {
        match self {
            Refusal::Line => "Line",
            Refusal::Full => "Full",
            Refusal::Names => "Names",
            Refusal::Text => "Text",
        }
    }
}

impl Unary {
    // The operator's number.
    pub fn number(self) -> u8
        ensures { result ≡ unary_number self }
    {
        self as u8
    }

    // The operator's name.
    pub fn name(self) -> &'static str
        ensures { result.now ≡ unary_name self }
    {
        match self {
            Unary::Not => "not",
            Unary::Ex => "EX",
            Unary::Ax => "AX",
            Unary::Ef => "EF",
            Unary::Af => "AF",
            Unary::Eg => "EG",
            Unary::Ag => "AG",
        }
    }
}

// The operator with a number, if one of these has it.
impl TryFrom<u8> for Unary {
    type Error = Refusal;

    ghost try_from_gives = { UnaryNumbered };

    fn try_from(number: u8) -> Result<Self, Refusal> {
        match number {
            3 => Ok(Unary::Not),
            7 => Ok(Unary::Ex),
            8 => Ok(Unary::Ax),
            9 => Ok(Unary::Ef),
            10 => Ok(Unary::Af),
            11 => Ok(Unary::Eg),
            12 => Ok(Unary::Ag),
            _ => Err(Refusal::Line),
        }
    }
}

// The same as for `Unary`, with no arm alike, so a trait over the two would share no code.
impl Binary {
    // The operator's number.
    pub fn number(self) -> u8
        ensures { result ≡ binary_number self }
    {
        self as u8
    }

    // The operator's name.
    pub fn name(self) -> &'static str
        ensures { result.now ≡ binary_name self }
    {
        match self {
            Binary::And => "and",
            Binary::Or => "or",
            Binary::Implies => "implies",
            Binary::Eu => "EU",
            Binary::Au => "AU",
            Binary::Er => "ER",
            Binary::Ar => "AR",
        }
    }
}

// The operator with a number, if one of these has it.
impl TryFrom<u8> for Binary {
    type Error = Refusal;

    ghost try_from_gives = { BinaryNumbered };

    fn try_from(number: u8) -> Result<Self, Refusal> {
        match number {
            4 => Ok(Binary::And),
            5 => Ok(Binary::Or),
            6 => Ok(Binary::Implies),
            13 => Ok(Binary::Eu),
            14 => Ok(Binary::Au),
            15 => Ok(Binary::Er),
            16 => Ok(Binary::Ar),
            _ => Err(Refusal::Line),
        }
    }
}

// The word with an operator's number and two fields.
fn packed(operator: u8, left: u8, right: u8) -> u32
    ensures { result ≡ 0x40000000 + 0x100000 * operator + 0x100 * left + right }
{
    u32::from_be_bytes([0x40, 0, left, right]) + 0x10_0000 * operator as u32
}

// The line with these fields, if there is one: a field that the operator does not use is zero.
fn with_fields(operator: u8, left: u8, right: u8) -> Result<Line, Refusal>
    ensures { Fielded operator left right result }
{
    match (operator, left, right) {
        (0, 0, 0) => Ok(Line::False),
        (1, 0, 0) => Ok(Line::True),
        (2, 0, mark) => Ok(Line::Mark(mark)),
        _ => match Binary::try_from(operator) {
            Ok(op) => Ok(Line::Two(op, left, right)),
            Err(why) if right != 0 => Err(why),
            Err(_) => Unary::try_from(operator).map(|op| Line::One(op, left)),
        },
    }
}

impl Line {
    // The line's word.
    pub fn word(self) -> u32
        ensures { result ≡ word_of self }
    {
        match self {
            Line::False => packed(0, 0, 0),
            Line::True => packed(1, 0, 0),
            Line::Mark(mark) => packed(2, 0, mark),
            Line::One(op, left) => packed(op.number(), left, 0),
            Line::Two(op, left, right) => packed(op.number(), left, right),
        }
    }

    // Whether the line names only marks below `marks` and lines below `at`.
    pub fn fits(self, at: u8, marks: u8) -> bool
        ensures { Decides result (FitsAt at marks self) }
    {
        match self {
            Line::False | Line::True => true,
            Line::Mark(mark) => mark < marks,
            Line::One(_, left) => left < at,
            Line::Two(_, left, right) => left < at && right < at,
        }
    }

    // The line that a word says as line `at` of a sheet with `marks` marks; a word that is not well formed there is refused.
    pub fn read(word: u32, at: u8, marks: u8) -> Result<Line, Refusal>
        ensures exact { ReadsAs word at marks result }
        ensures undoes { Undoes word at marks result }
    {
        if word >> 28 != 4 || (word >> 16) % 16 != 0 {
            return Err(Refusal::Line);
        }
        let operator = ((word >> 20) % 256) as u8;
        let [_, _, left, right] = word.to_be_bytes();
        let line = with_fields(operator, left, right)?;
        if line.fits(at, marks) {
            Ok(line)
        } else {
            Err(Refusal::Line)
        }
    }
}

// A line by its operator's name and the numbers that it names, as `EX 2` or `and 0 3`.
impl fmt::Display for Line {
    ghost output = { λ l. Some (shown_as l) };

    fn fmt<W: fmt::Write>(&self, f: &mut fmt::Formatter<W>) -> fmt::Result {
        match *self {
            Line::False => write!(f, "F"),
            Line::True => write!(f, "T"),
            Line::Mark(mark) => write!(f, "mark {mark}"),
            Line::One(op, left) => write!(f, "{} {left}", op.name()),
            Line::Two(op, left, right) => write!(f, "{} {left} {right}", op.name()),
        }
    }
}

// A refusal by its number and name, as `16 Text`.
impl fmt::Display for Refusal {
    ghost output = { λ r. Some (shown_refusal r) };

    fn fmt<W: fmt::Write>(&self, f: &mut fmt::Formatter<W>) -> fmt::Result {
        write!(f, "{} {}", self.number(), self.name())
    }
}
