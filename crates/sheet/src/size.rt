// The size of a sheet, the checks that calls begin with, and where entries and answers lie in the stretch.
ghost use Rattle.std.specs.Prelude.{◌≡◌};
ghost use Rattle.formula.specs.Tells.{held};
ghost use Rattle.sheet.specs.Layout.{answer_row};
ghost use Rattle.sheet.specs.Verdicts.{SizeRight, LentRight, ArrowRight, MarkRight, AnswerRight};

use crate::state::Refusal;
use scale::Logic;

// How many lines a sheet has at most, and how many line words a call is lent at the least.
pub(crate) const MOST_LINES: u8 = 64;

// How many stages a sheet has, how many marks at each, and how many lines. A number of lines over 64 stands for 64.
#[derive(Clone, Copy)]
pub struct Size {
    pub(crate) stages: u8,
    pub(crate) marks: u8,
    pub(crate) lines: u8,
}

impl Size {
    // The size of a sheet that is opened, if a sheet may have it.
    pub(crate) fn opened(stages: u8, marks: u8) -> Result<Size, Refusal>
        ensures { SizeRight stages marks result }
    {
        if stages < 1 || stages > 64 || marks > 16 {
            return Err(Refusal::Size);
        }
        Ok(Size {
            stages,
            marks,
            lines: 0,
        })
    }

    // How many lines the number of lines stands for.
    pub(crate) fn held(self) -> u8
        ensures { result ≡ held self.lines }
    {
        self.lines.min(MOST_LINES)
    }

    // Checks the memory that a call is lent.
    pub(crate) fn check_lent<L: Logic>(
        self,
        logic: &L,
        values: usize,
        words: usize,
    ) -> Result<(), Refusal>
        ensures { LentRight (L.Scale.model logic.now) self.stages self.marks values words result }
    {
        if logic.size() > 4096 {
            return Err(Refusal::Logic);
        }
        let n = self.stages as usize;
        if values < n * (n + self.marks as usize + 66) {
            return Err(Refusal::Stretch);
        }
        if words < MOST_LINES as usize {
            return Err(Refusal::Words);
        }
        Ok(())
    }

    // The place of the arrow from one stage to another.
    pub(crate) fn arrow_place(self, from: u8, to: u8) -> Result<usize, Refusal>
        ensures { ArrowRight self.stages from to result }
    {
        if from >= self.stages || to >= self.stages {
            return Err(Refusal::State);
        }
        Ok(from as usize * self.stages as usize + to as usize)
    }

    // The place of a mark of a stage.
    pub(crate) fn mark_place(self, stage: u8, mark: u8) -> Result<usize, Refusal>
        ensures { MarkRight self.stages self.marks stage mark result }
    {
        if stage >= self.stages {
            return Err(Refusal::State);
        }
        if mark >= self.marks {
            return Err(Refusal::Mark);
        }
        let n = self.stages as usize;
        Ok(n * n + (stage as usize * self.marks as usize + mark as usize))
    }

    // Where the answer row of a line begins.
    pub(crate) fn answer_row(self, line: u8) -> usize
        ensures { result ≡ answer_row self.stages self.marks line }
    {
        let n = self.stages as usize;
        n * (n + self.marks as usize + line as usize)
    }

    // The place of the answer of a line at a stage.
    pub(crate) fn answer_place(self, line: u8, at: u8) -> Result<usize, Refusal>
        ensures { AnswerRight self.stages self.marks (held self.lines) line at result }
    {
        if line >= self.held() {
            return Err(Refusal::Answer);
        }
        if at >= self.stages {
            return Err(Refusal::State);
        }
        Ok(self.answer_row(line) + at as usize)
    }
}
