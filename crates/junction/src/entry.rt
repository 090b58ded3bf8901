// Entries of a draft.
use std::fmt;

// An entry. A value is given by its number.
#[derive(Clone, Copy)]
pub enum Entry {
    // from a stage to a stage, a value
    Arrow(u8, u8, u32),
    // at a stage, a mark, a value
    Mark(u8, u8, u32),
    Line(u32),
    Text(&'static str),
}

impl fmt::Display for Entry {
    fn fmt<W: fmt::Write>(&self, f: &mut fmt::Formatter<W>) -> fmt::Result {
        match *self {
            Entry::Arrow(from, to, value) => write!(f, "arrow {from} {to} value {value}"),
            Entry::Mark(stage, mark, value) => write!(f, "mark {mark} at {stage} value {value}"),
            Entry::Line(word) => write!(f, "line 0x{word:08x}"),
            Entry::Text(text) => write!(f, "text {text}"),
        }
    }
}
