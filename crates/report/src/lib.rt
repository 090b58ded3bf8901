// What a plan prints: its outputs in order, and where it stopped, if it did.
#![tactic(auto)]

ghost use Rattle.std.specs.Prelude.{◌≡◌, List, IfOk, Some, string_bytes};
ghost use Rattle.report.specs.declared.Refusal.TheVariants.{Logic, Sheet};
ghost use Rattle.report.specs.Texts.{refusal_number, output_text, stop_text, text_of};

use std::alloc::{AllocError, Global};
use std::fmt;
use std::fmt::Write;

// What one call prints.
#[derive(Clone, Copy)]
pub enum Output {
    // how many rounds a settling took
    Rounds(u8),
    // the number of a line's value at a stage
    Value { line: u8, stage: u8, number: u32 },
}

// Why a word was refused.
#[derive(Clone, Copy)]
pub enum Refusal {
    // missing, cut short, past the last, after the end, out of phase, or with wrong bits
    Word,
    // by the maker of a logic
    Logic(scale::Refusal),
    // by a call of the sheet
    Sheet(sheet::Refusal),
}

impl From<scale::Refusal> for Refusal {
    ghost from_gives = { λ why r. r ≡ Logic why };

    fn from(why: scale::Refusal) -> Refusal {
        Refusal::Logic(why)
    }
}

impl From<sheet::Refusal> for Refusal {
    ghost from_gives = { λ why r. r ≡ Sheet why };

    fn from(why: sheet::Refusal) -> Refusal {
        Refusal::Sheet(why)
    }
}

// The word at which a plan stopped, counted from 0, and why.
#[derive(Clone, Copy)]
pub struct Stop {
    pub word: usize,
    pub refusal: Refusal,
}

// What a plan came to: all that it prints.
#[derive(Drop)]
pub struct Outcome {
    pub outputs: Vec<Output>,
    pub stop: Option<Stop>,
}

impl Refusal {
    // The number that reports give.
    pub fn number(self) -> u8
        ensures { result ≡ refusal_number self }
    {
        match self {
            Refusal::Word => 17,
            Refusal::Logic(why) => why.number(),
            Refusal::Sheet(why) => why.number(),
        }
    }
}

// `rounds 2`, or line, stage and value number, as `1 0 2`.
impl fmt::Display for Output {
    ghost output = { λ o. Some (output_text o) };

    fn fmt<W: fmt::Write>(&self, f: &mut fmt::Formatter<W>) -> fmt::Result {
        match *self {
            Output::Rounds(count) => write!(f, "rounds {count}"),
            Output::Value {
                line,
                stage,
                number,
            } => write!(f, "{line} {stage} {number}"),
        }
    }
}

// `word 3 refusal 17`.
impl fmt::Display for Stop {
    ghost output = { λ s. Some (stop_text s) };

    fn fmt<W: fmt::Write>(&self, f: &mut fmt::Formatter<W>) -> fmt::Result {
        let word = self.word;
        let number = self.refusal.number();
        write!(f, "word {word} refusal {number}")
    }
}

impl Outcome {
    // A line for each output, and one for the refusal.
    pub fn text(&self, heap: Global) -> Result<String, AllocError>
        ensures { IfOk result (λ t. string_bytes t ≡ text_of self.now.outputs.items self.now.stop) }
    {
        let mut text = String::new(heap);
        for output in self.outputs.as_slice() {
            writeln!(text, "{output}")?;
        }
        if let Some(stop) = self.stop {
            writeln!(text, "{stop}")?;
        }
        Ok(text)
    }
}
