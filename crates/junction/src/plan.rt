// The plan of a signalled junction, as entries over six values: F must not, N should not, DK not known, DC of no matter,
// S should, T must.
// Stages: 0 all red, 1 main road green, 2 side road green, 3 pedestrians green, 4 amber.
// Marks: 0 go (a road has green), 1 walk (pedestrians have green), 2 safe (no two streams meet).
use crate::entry::Entry;

// A word for each value: its opposite, and the set of the values at or below it.
pub const SIX: [u32; 6] = [
    0x60050001, 0x60040003, 0x60020007, 0x6003000B, 0x6001001F, 0x6000003F,
];

pub const STAGES: u8 = 5;

pub const MARKS: u8 = 3;

pub const NAMES: &str = "go walk safe";

// The values that a sheet of 5 stages and 3 marks is lent: 5 × (5 + 3 + 66).
pub const VALUES: usize = 370;

pub const MODEL: [Entry; 17] = [
    Entry::Arrow(0, 0, 3),
    Entry::Arrow(0, 1, 5),
    Entry::Arrow(0, 2, 4),
    Entry::Arrow(0, 3, 2),
    Entry::Arrow(1, 4, 5),
    Entry::Arrow(2, 4, 5),
    Entry::Arrow(3, 0, 5),
    Entry::Arrow(4, 0, 4),
    Entry::Mark(1, 0, 5),
    Entry::Mark(2, 0, 4),
    Entry::Mark(4, 0, 1),
    Entry::Mark(3, 1, 5),
    Entry::Mark(0, 2, 5),
    Entry::Mark(1, 2, 4),
    Entry::Mark(2, 2, 4),
    Entry::Mark(3, 2, 3),
    Entry::Mark(4, 2, 5),
];

// The formulas, each with the line that its answers stand in: the last of its text's lines.
pub const FORMULAS: [(&str, u8); 13] = [
    ("EX go", 1),
    ("AX go", 3),
    ("EF walk", 5),
    ("AF walk", 7),
    ("EG safe", 9),
    ("AG safe", 11),
    ("E[safe U walk]", 14),
    ("A[safe U walk]", 17),
    ("E[walk R safe]", 20),
    ("A[walk R safe]", 23),
    ("go -> AF !go", 28),
    ("AG(go -> !walk)", 33),
    ("!walk & safe", 37),
];

// Lines 38 to 41 by their words: the mark safe, EX of line 38, lines 38 and 39, T. Then entries that are refused: a stage,
// a value, a mark and a line that there are not, and a text with no tree.
pub const WORDS: [Entry; 9] = [
    Entry::Line(0x40200002),
    Entry::Line(0x40702600),
    Entry::Line(0x40402627),
    Entry::Line(0x40100000),
    Entry::Arrow(0, 5, 5),
    Entry::Arrow(0, 1, 6),
    Entry::Mark(0, 3, 5),
    Entry::Line(0x40702A00),
    Entry::Text("E X go"),
];
