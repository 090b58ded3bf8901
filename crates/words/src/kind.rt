// The words of a plan file: what each says by its own bits.
ghost use Rattle.std.specs.Prelude.{◌≡◌, ◌<◌};
ghost use Rattle.words.specs.Kinds.{field, if_zero, arrow_of, mark_of, size_of, ask_of, kind_of};

// An entry of a draft; values go by their numbers.
#[derive(Clone, Copy)]
pub enum Entry {
    Arrow { from: u8, to: u8, number: u32 },
    Mark { stage: u8, mark: u8, number: u32 },
    Line { word: u32 },
}

// What a word is. A line word and a table's word keep their own layouts, which the sheet and the table read.
#[derive(Clone, Copy)]
pub enum Kind {
    End,
    Size { stages: u8, marks: u8 },
    Enter(Entry),
    Ask { line: u8, stage: u8 },
    Table,
    Chain { values: u8 },
    Sets { members: u8 },
}

// The `count` bits of a word from bit `low` on.
fn bits(word: u32, low: u32, count: u32) -> u32
    requires low_within { low < 32 }
    requires count_within { count < 32 }
    ensures { result ≡ field low count word }
{
    (word >> low) % (1 << count)
}

// Eight bits of a word from bit `low` on.
fn byte(word: u32, low: u32) -> u8
    requires { low < 32 }
    ensures { result ≡ field low 8 word }
{
    bits(word, low, 8) as u8
}

// A kind, where the bits that it does not use are zero.
fn only_if_zero(unused: u32, kind: Kind) -> Option<Kind>
    ensures { result ≡ if_zero unused kind }
{
    if unused == 0 { Some(kind) } else { None }
}

// The three fields of an arrow, a mark or an ask: bits 27 to 20, 19 to 12 and 11 to 0.
fn fields(word: u32) -> (u8, u8, u32)
    ensures { result ≡ (field 20 8 word, field 12 8 word, field 0 12 word) }
{
    (byte(word, 20), byte(word, 12), bits(word, 0, 12))
}

impl Entry {
    // The entry of an arrow word.
    fn arrow(word: u32) -> Entry
        ensures { result ≡ arrow_of word }
    {
        let (from, to, number) = fields(word);
        Entry::Arrow { from, to, number }
    }

    // The entry of a mark word.
    fn mark(word: u32) -> Entry
        ensures { result ≡ mark_of word }
    {
        let (stage, mark, number) = fields(word);
        Entry::Mark {
            stage,
            mark,
            number,
        }
    }
}

impl Kind {
    // What a size word says, where its other bits are zero.
    fn size(word: u32) -> Option<Kind>
        ensures { result ≡ size_of word }
    {
        let stages = byte(word, 8);
        let marks = byte(word, 0);
        only_if_zero(bits(word, 16, 12), Kind::Size { stages, marks })
    }

    // What an ask says, where its other bits are zero.
    fn ask(word: u32) -> Option<Kind>
        ensures { result ≡ ask_of word }
    {
        let (line, stage, unused) = fields(word);
        only_if_zero(unused, Kind::Ask { line, stage })
    }

    // What a word is, or none where no kind has its number, or a bit that its kind does not use is set.
    pub fn of(word: u32) -> Option<Kind>
        ensures { result ≡ kind_of word }
    {
        let low = byte(word, 0);
        match bits(word, 28, 4) {
            0 => only_if_zero(bits(word, 0, 28), Kind::End),
            1 => Kind::size(word),
            2 => Some(Kind::Enter(Entry::arrow(word))),
            3 => Some(Kind::Enter(Entry::mark(word))),
            4 => Some(Kind::Enter(Entry::Line { word })),
            5 => Kind::ask(word),
            6 => Some(Kind::Table),
            7 => only_if_zero(bits(word, 8, 20), Kind::Chain { values: low }),
            8 => only_if_zero(bits(word, 8, 20), Kind::Sets { members: low }),
            _ => None,
        }
    }
}
