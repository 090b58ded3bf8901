// What is printed of an answer.
ghost use Rattle.std.specs.Prelude.{◌≡◌, Some};
ghost use Rattle.junction.specs.Answers.{value_name, answer_text, entered_answer, reading_answer};

use scale::Logic;
use sheet::Refusal;
use std::fmt;

// What a call answers.
#[derive(Clone, Copy)]
pub enum Answer {
    Opened,
    Entered,
    Rounds(u8),
    // the number of a value
    Value(u32),
    Refused(Refusal),
}

// The name of one of the six values.
fn value_name(number: u32) -> &'static str
    ensures { result.now ≡ value_name number }
{
    match number {
        0 => "F",
        1 => "N",
        2 => "DK",
        3 => "DC",
        4 => "S",
        5 => "T",
        _ => "",
    }
}

impl fmt::Display for Answer {
    ghost output = { λ a. Some (answer_text a) };

    fn fmt<W: fmt::Write>(&self, f: &mut fmt::Formatter<W>) -> fmt::Result {
        match *self {
            Answer::Opened => write!(f, "opened"),
            Answer::Entered => write!(f, "entered"),
            Answer::Rounds(count) => write!(f, "rounds {count}"),
            Answer::Value(number) => {
                let name = value_name(number);
                write!(f, "{number} {name}")
            }
            Answer::Refused(why) => write!(f, "refusal {why}"),
        }
    }
}

impl Answer {
    // What a reading answers; the value goes by its number.
    pub(crate) fn reading<L: Logic>(logic: &L, read: Result<L::Value, Refusal>) -> Answer
        ensures { result ≡ reading_answer (L.Scale.model logic.now) read }
    {
        match read {
            Ok(value) => Answer::Value(logic.number(value).unwrap_or(0)),
            Err(why) => Answer::Refused(why),
        }
    }
}

impl From<Result<(), Refusal>> for Answer {
    ghost from_gives = { λ r a. a ≡ entered_answer r };

    fn from(entered: Result<(), Refusal>) -> Answer {
        match entered {
            Ok(()) => Answer::Entered,
            Err(why) => Answer::Refused(why),
        }
    }
}
