// Settling: fills the answer row of each line, and finds the greatest count of rounds.
ghost use Rattle.std.specs.Prelude.{◌≡◌, ℕ, ◌<◌, ◌≤◌, List, length};
ghost use Rattle.scale.specs.Model.{most_values};
ghost use Rattle.lines.specs.declared.Line.{Line as Said};
ghost use Rattle.formula.specs.Tells.{held};
ghost use Rattle.sheet.specs.Layout.{room};
ghost use Rattle.sheet.specs.Lines.{Says};
ghost use Rattle.sheet.specs.Logics.{logic_at};
ghost use Rattle.sheet.specs.Filling.{one_step, two_step, step_of, until, LineSettled, Fills};
ghost use Rattle.sheet.specs.Sheet.{Judged, settle as Settle};
ghost use Rattle.sheet.specs.Verdicts.{verdict_of, LinesRight};

use crate::size::{MOST_LINES, Size};
use crate::state::Refusal;
use ctl::Paths;
use lines::{Binary, Line, Unary};
use rounds::settle_step;
use scale::Logic;
use steps::{Side, Step, Until};

fn until(paths: Paths, before: Side, end: Side) -> Until
    ensures { result ≡ until paths before end }
{
    Until { paths, before, end }
}

// The step of an operator over the row at a place.
fn step_of_one(operator: Unary, p: usize) -> Step
    ensures { result ≡ one_step operator p }
{
    match operator {
        Unary::Not => Step::Copied(Side::Not(p)),
        Unary::Ex => Step::Ex(p),
        Unary::Ax => Step::Ax(p),
        Unary::Ef => Step::Until(until(Paths::One, Side::Top, Side::At(p))),
        Unary::Af => Step::Until(until(Paths::All, Side::Top, Side::At(p))),
        Unary::Eg => Step::Dual(until(Paths::All, Side::Top, Side::Not(p))),
        Unary::Ag => Step::Dual(until(Paths::One, Side::Top, Side::Not(p))),
    }
}

// The step of an operator over the rows at two places.
fn step_of_two(operator: Binary, p: usize, q: usize) -> Step
    ensures { result ≡ two_step operator p q }
{
    match operator {
        Binary::And => Step::And(Side::At(p), Side::At(q)),
        Binary::Or => Step::Or(Side::At(p), Side::At(q)),
        Binary::Implies => Step::Or(Side::Not(p), Side::At(q)),
        Binary::Eu => Step::Until(until(Paths::One, Side::At(p), Side::At(q))),
        Binary::Au => Step::Until(until(Paths::All, Side::At(p), Side::At(q))),
        Binary::Er => Step::Dual(until(Paths::All, Side::Not(p), Side::Not(q))),
        Binary::Ar => Step::Dual(until(Paths::One, Side::Not(p), Side::Not(q))),
    }
}

impl Size {
    // The step by which a line's answer row is filled.
    fn step_of(self, line: Line) -> Step
        ensures { result ≡ step_of self.stages self.marks line }
    {
        match line {
            Line::False => Step::Copied(Side::Bottom),
            Line::True => Step::Copied(Side::Top),
            Line::Mark(mark) => Step::Mark(mark as usize),
            Line::One(operator, left) => step_of_one(operator, self.answer_row(left)),
            Line::Two(operator, left, right) => {
                step_of_two(operator, self.answer_row(left), self.answer_row(right))
            }
        }
    }

    // Settles line k, if its word says a line there, and answers its count of rounds.
    fn settle_line<L: Logic>(self, logic: &L, stretch: &mut [L::Value], k: u8, word: u32) -> u8
        requires small { (L.Scale.model logic.now).size ≤ most_values }
        requires roomy { room self.stages self.marks ≤ length stretch.old }
        requires few { k < 64 }
        ensures { LineSettled (logic_at L.Logic logic.now) self.stages self.marks k word stretch.old result stretch.new }
    {
        let Ok(line) = Line::read(word, k, self.marks) else {
            return 0;
        };
        let step = self.step_of(line);
        let to = self.answer_row(k);
        let work = self.answer_row(MOST_LINES);
        settle_step(
            logic,
            stretch,
            self.stages as usize,
            self.marks as usize,
            step,
            to,
            work,
        )
        .map_or(0, |count| count as u8)
    }

    // Settles the lines of the sheet in their order, and answers the greatest count of rounds.
    pub(crate) fn settle_lines<L: Logic>(
        self,
        logic: &L,
        stretch: &mut [L::Value],
        words: &[u32],
    ) -> u8
        requires small { (L.Scale.model logic.now).size ≤ most_values }
        requires roomy { room self.stages self.marks ≤ length stretch.old }
        requires wordy { 64 ≤ length words.now }
        ensures { Fills (logic_at L.Logic logic.now) self.stages self.marks (held self.lines) words.now stretch.old (held self.lines) result stretch.new }
    {
        let mut most: u8 = 0;
        let held = &words[..self.held() as usize];
        for (k, word) in held.iter().enumerate() {
            most = most.max(self.settle_line(logic, stretch, k as u8, *word));
        }
        most
    }

    // Checks that the words of the sheet's lines all say lines.
    fn check_lines(self, words: &[u32]) -> Result<(), Refusal>
        requires { held self.lines ≤ length words.now }
        ensures { LinesRight self.marks (held self.lines) words.now result }
    {
        let held = &words[..self.held() as usize];
        for (k, word) in held.iter().enumerate() {
            Line::read(*word, k as u8, self.marks)?;
        }
        Ok(())
    }

    // Checks that a draft of this size can be settled.
    pub(crate) fn check_settle<L: Logic>(
        self,
        logic: &L,
        values: usize,
        words: &[u32],
    ) -> Result<(), Refusal>
        ensures { Judged (L.Scale.model logic.now) self.stages self.marks values (length words.now) (held self.lines) ((ls : List Said) × Says self.marks (held self.lines) words.now ls) Settle (verdict_of result) }
    {
        self.check_lent(logic, values, words.len())?;
        self.check_lines(words)
    }
}
