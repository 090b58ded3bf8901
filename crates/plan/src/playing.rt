// A plan over one logic, from its size word to its end.
ghost use Rattle.std.specs.Prelude.{◌≡◌, ◌+◌, ◌≤◌, [], length, drop, IfOk};
ghost use Rattle.sheet.specs.Logics.{logic_at};
ghost use Rattle.sheet.specs.Sheet.{draft_on};
ghost use Rattle.plan.specs.Calls.{word_at, SheetPlan};
ghost use Rattle.plan.specs.Phases.{Plays, Ended, Halted};

use crate::desk::Desk;
use crate::phase::{Halt, Phase, open};
use report::{Outcome, Refusal, Stop};
use scale::Logic;
use sheet::Draft;
use std::alloc::{AllocError, Global};
use words::kind::Kind;

// The words of a plan that are still to be played; `more` says that bytes follow the last.
#[derive(Clone, Copy)]
pub(crate) struct Rest<'a> {
    pub(crate) words: &'a [u32],
    // the number of the first of them
    pub(crate) at: usize,
    pub(crate) more: bool,
    ghost few: { at + length words.now ≤ 8192 },
}

// The plan stops at a word that is missing, out of phase or malformed.
pub(crate) fn word_at(word: usize) -> Option<Stop>
    ensures { result ≡ word_at word }
{
    Some(Stop {
        word,
        refusal: Refusal::Word,
    })
}

impl<'a> Rest<'a> {
    // What follows the end word, which is the first of these: nothing may.
    fn after_end(self) -> Option<Stop>
        ensures { Ended self.entry.more self.entry.at (drop 1 self.entry.words.now) result }
    {
        if self.more || self.words.len() > 1 {
            word_at(self.at + 1)
        } else {
            None
        }
    }

    // Where a plan stops that goes no further at the first of these words.
    fn stop(self, halt: Halt) -> Result<Option<Stop>, AllocError>
        ensures { IfOk result (λ stop. Halted halt self.entry.more self.entry.at (drop 1 self.entry.words.now) stop) }
    {
        match halt {
            Halt::End => Ok(self.after_end()),
            Halt::Word => Ok(word_at(self.at)),
            Halt::Sheet(why) => Ok(Some(Stop {
                word: self.at,
                refusal: why.into(),
            })),
            Halt::Memory(failed) => Err(failed),
        }
    }
}

// Plays the words of a plan on its sheet.
fn play<L: Logic>(
    logic: &L,
    desk: &mut Desk<L::Value>,
    draft: Draft,
    plan: Rest,
) -> Result<Option<Stop>, AllocError>
    ensures { IfOk result (λ stop. Plays (logic_at L.Logic logic.now) (draft_on draft desk.old.stretch.items desk.old.lines) plan.entry.more plan.entry.at plan.entry.words.now desk.old.outputs.items stop desk.new.outputs.items) }
{
    let mut rest = plan;
    let mut phase = Phase::Draft(draft);
    // by a pattern and not by an iterator: a plan is taken as its first word and the rest
    'words: while let [word, words @ ..] = rest.words {
        phase = match phase.step(logic, desk, Kind::of(*word)) {
            Ok(next) => next,
            Err(halt) => return rest.stop(halt),
        };
        rest = Rest {
            words,
            at: rest.at + 1,
            more: rest.more,
        };
    }
    Ok(word_at(rest.at))
}

// Opens the sheet that the size word says, and plays the words after it.
fn play_sized<L: Logic>(
    logic: &L,
    desk: &mut Desk<L::Value>,
    plan: Rest,
) -> Result<Option<Stop>, AllocError>
    requires fresh { desk.old.outputs.items ≡ [] }
    ensures { IfOk result (λ stop. SheetPlan (logic_at L.Logic logic.now) plan.entry.more plan.entry.at plan.entry.words.now desk.new.outputs.items stop) }
{
    let [word, words @ ..] = plan.words else {
        return Ok(word_at(plan.at));
    };
    let Some(Kind::Size { stages, marks }) = Kind::of(*word) else {
        return Ok(word_at(plan.at));
    };
    match open(logic, desk, stages, marks) {
        Ok(draft) => {
            let rest = Rest {
                words,
                at: plan.at + 1,
                more: plan.more,
            };
            play(logic, desk, draft, rest)
        }
        Err(why) => Ok(Some(Stop {
            word: plan.at,
            refusal: why.into(),
        })),
    }
}

// What a plan over a logic comes to, from its size word on.
pub(crate) fn run_sheet<L: Logic>(
    heap: Global,
    logic: &L,
    plan: Rest,
) -> Result<Outcome, AllocError>
    ensures { IfOk result (λ o. SheetPlan (logic_at L.Logic logic.now) plan.entry.more plan.entry.at plan.entry.words.now o.outputs.items o.stop) }
{
    let mut desk = Desk::new(heap, logic.lowest())?;
    let stop = play_sized(logic, &mut desk, plan)?;
    let Desk { outputs, .. } = desk;
    Ok(Outcome { outputs, stop })
}
