// What a word of a plan does in a phase of its sheet.
ghost use Rattle.std.specs.Prelude.{◌≡◌, [], ◌∷◌};
ghost use Rattle.sheet.specs.Logics.{logic_at};
ghost use Rattle.sheet.specs.Sheet.{Opens, Step, drafting as in_draft, settled as in_settled, settle as Settle, read_at, draft_on, settled_on, entry_reply, settle_reply, settle_sheet};
ghost use Rattle.sheet.specs.Runs.{Law};
ghost use Rattle.plan.specs.declared.phase.Halt.TheVariants.{Sheet as by_call, Memory as no_memory};
ghost use Rattle.plan.specs.Calls.{entry_call};
ghost use Rattle.plan.specs.Phases.{ReadsNumber, Leads, WordDone};

use crate::desk::Desk;
use report::Output;
use scale::Logic;
use sheet::{Draft, Settled};
use std::alloc::{AllocError, AllocFailed};
use words::kind::{Entry, Kind};

// A sheet as a plan has it between two words.
#[derive(Drop)]
pub enum Phase {
    Draft(Draft),
    Settled(Settled),
}

// Why a plan goes no further.
#[derive(Clone, Copy)]
pub enum Halt {
    // the word is the end
    End,
    // the word is out of phase, or has wrong bits
    Word,
    // a call of the sheet is refused
    Sheet(sheet::Refusal),
    // there was no memory for what is printed
    Memory(AllocError),
}

impl From<sheet::Refusal> for Halt {
    ghost from_gives = { λ why h. h ≡ by_call why };

    fn from(why: sheet::Refusal) -> Halt {
        Halt::Sheet(why)
    }
}

impl From<AllocFailed<Output>> for Halt {
    ghost from_gives = { λ _ h. (e : _) × (h ≡ no_memory e) };

    fn from(failed: AllocFailed<Output>) -> Halt {
        Halt::Memory(AllocError::from(failed))
    }
}

// Opens a sheet of so many stages and marks.
pub(crate) fn open<L: Logic>(
    logic: &L,
    desk: &mut Desk<L::Value>,
    stages: u8,
    marks: u8,
) -> Result<Draft, sheet::Refusal>
    ensures opens { Opens (logic_at L.Logic logic.now) stages marks desk.old.stretch.items desk.old.lines result desk.new.stretch.items desk.new.lines }
    ensures law { Law (logic_at L.Logic logic.now) }
    ensures printed { desk.new.outputs.items ≡ desk.old.outputs.items }
{
    let stretch = desk.stretch.as_mut_slice();
    Draft::open(logic, stretch, &mut desk.lines, stages, marks)
}

// Makes an entry.
fn enter<L: Logic>(
    draft: &mut Draft,
    logic: &L,
    desk: &mut Desk<L::Value>,
    entry: Entry,
) -> Result<(), sheet::Refusal>
    ensures step { Step (logic_at L.Logic logic.now) (draft_on draft.old desk.old.stretch.items desk.old.lines) (entry_call entry) (entry_reply result) (draft_on draft.new desk.new.stretch.items desk.new.lines) }
    ensures printed { desk.new.outputs.items ≡ desk.old.outputs.items }
{
    let stretch = desk.stretch.as_mut_slice();
    let lines = &mut desk.lines;
    match entry {
        Entry::Arrow { from, to, number } => draft.arrow(logic, stretch, lines, from, to, number),
        Entry::Mark {
            stage,
            mark,
            number,
        } => draft.mark(logic, stretch, lines, stage, mark, number),
        Entry::Line { word } => draft.line(logic, stretch, lines, word),
    }
}

// The number of a line's value at a stage.
fn read_number<L: Logic>(
    settled: &Settled,
    logic: &L,
    desk: &Desk<L::Value>,
    line: u8,
    stage: u8,
) -> Result<u32, sheet::Refusal>
    ensures { ReadsNumber (logic_at L.Logic logic.now) (settled_on settled.now desk.now.stretch.items desk.now.lines) line stage result }
{
    let value = settled.read(logic, desk.stretch.as_slice(), &desk.lines, line, stage)?;
    match logic.number(value) {
        Some(number) => Ok(number),
        None => unreachable(),
    }
}

// Makes an entry, which leaves a draft.
fn enter_draft<L: Logic>(
    mut draft: Draft,
    logic: &L,
    desk: &mut Desk<L::Value>,
    entry: Entry,
) -> Result<Phase, Halt>
    ensures { Leads (logic_at L.Logic logic.now) (draft_on draft desk.old.stretch.items desk.old.lines) (entry_call entry ∷ []) in_draft desk.old.outputs.items result desk.new.stretch.items desk.new.lines desk.new.outputs.items }
{
    enter(&mut draft, logic, desk, entry)?;
    Ok(Phase::Draft(draft))
}

// Reads a line at a stage, and notes the value's number.
fn ask_settled<L: Logic>(
    settled: Settled,
    logic: &L,
    desk: &mut Desk<L::Value>,
    line: u8,
    stage: u8,
) -> Result<Phase, Halt>
    ensures { Leads (logic_at L.Logic logic.now) (settled_on settled desk.old.stretch.items desk.old.lines) (read_at line stage ∷ []) in_settled desk.old.outputs.items result desk.new.stretch.items desk.new.lines desk.new.outputs.items }
{
    let number = read_number(&settled, logic, desk, line, stage)?;
    desk.outputs.push(Output::Value {
        line,
        stage,
        number,
    })?;
    Ok(Phase::Settled(settled))
}

// Settles a draft.
fn settle<L: Logic>(
    draft: Draft,
    logic: &L,
    desk: &mut Desk<L::Value>,
) -> Result<(Settled, u8), (Draft, sheet::Refusal)>
    ensures step { Step (logic_at L.Logic logic.now) (draft_on draft desk.old.stretch.items desk.old.lines) Settle (settle_reply result) (settle_sheet result desk.new.stretch.items desk.new.lines) }
    ensures lines { desk.new.lines ≡ desk.old.lines }
    ensures printed { desk.new.outputs.items ≡ desk.old.outputs.items }
{
    draft.settle(logic, desk.stretch.as_mut_slice(), &desk.lines)
}

// Settles a draft and notes the rounds, then reads a line at a stage.
fn ask_draft<L: Logic>(
    draft: Draft,
    logic: &L,
    desk: &mut Desk<L::Value>,
    line: u8,
    stage: u8,
) -> Result<Phase, Halt>
    ensures { Leads (logic_at L.Logic logic.now) (draft_on draft desk.old.stretch.items desk.old.lines) (Settle ∷ read_at line stage ∷ []) in_settled desk.old.outputs.items result desk.new.stretch.items desk.new.lines desk.new.outputs.items }
{
    match settle(draft, logic, desk) {
        Ok((settled, rounds)) => {
            desk.outputs.push(Output::Rounds(rounds))?;
            ask_settled(settled, logic, desk, line, stage)
        }
        Err((_, why)) => Err(Halt::Sheet(why)),
    }
}

impl Phase {
    // What a word does in a phase.
    pub(crate) fn step<L: Logic>(
        self,
        logic: &L,
        desk: &mut Desk<L::Value>,
        kind: Option<Kind>,
    ) -> Result<Phase, Halt>
        ensures { WordDone (logic_at L.Logic logic.now) self desk.old.stretch.items desk.old.lines kind desk.old.outputs.items result desk.new.stretch.items desk.new.lines desk.new.outputs.items }
    {
        match (self, kind) {
            (Phase::Draft(draft), Some(Kind::Enter(entry))) => {
                enter_draft(draft, logic, desk, entry)
            }
            (Phase::Settled(settled), Some(Kind::Enter(entry))) => {
                let draft = settled.reopen(logic, desk.stretch.as_slice(), &desk.lines);
                enter_draft(draft, logic, desk, entry)
            }
            (Phase::Draft(draft), Some(Kind::Ask { line, stage })) => {
                ask_draft(draft, logic, desk, line, stage)
            }
            (Phase::Settled(settled), Some(Kind::Ask { line, stage })) => {
                ask_settled(settled, logic, desk, line, stage)
            }
            (_, Some(Kind::End)) => Err(Halt::End),
            _ => Err(Halt::Word),
        }
    }
}
