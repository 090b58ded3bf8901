// What each call of a sheet is lent: the logic, the values and the line words; and the names of the marks, for texts.
ghost use Rattle.std.specs.Prelude.{◌≡◌};
ghost use Rattle.sheet.specs.Logics.{logic_at};
ghost use Rattle.sheet.specs.Sheet.{Opens, Step, settle as Settle, read_at, reopen as Reopen, done, draft_on, settled_on, entry_reply, settle_reply, settle_sheet, read_reply};
ghost use Rattle.junction.specs.Calls.{entry_call};

use crate::entry::Entry;
use scale::Logic;
use sheet::{Draft, Refusal, Settled};

#[derive(Drop)]
pub struct Desk<'a, L: Logic> {
    pub logic: &'a L,
    pub stretch: &'a mut [L::Value],
    pub words: &'a mut [u32],
    pub names: &'a str,
}

impl<'a, L: Logic> Desk<'a, L> {
    // Opens a sheet.
    pub fn open(&mut self, stages: u8, marks: u8) -> Result<Draft, Refusal>
        ensures opens { Opens (logic_at L.Logic self.old.logic.now) stages marks self.old.stretch.now self.old.words.now result self.new.stretch.now self.new.words.now }
        ensures logic { self.new.logic.now ≡ self.old.logic.now }
        ensures names { self.new.names.now ≡ self.old.names.now }
    {
        Draft::open(self.logic, self.stretch, self.words, stages, marks)
    }

    // Makes an entry.
    pub fn enter(&mut self, draft: &mut Draft, entry: Entry) -> Result<(), Refusal>
        ensures step { Step (logic_at L.Logic self.old.logic.now) (draft_on draft.old self.old.stretch.now self.old.words.now) (entry_call self.old.names.now entry) (entry_reply result) (draft_on draft.new self.new.stretch.now self.new.words.now) }
        ensures logic { self.new.logic.now ≡ self.old.logic.now }
        ensures names { self.new.names.now ≡ self.old.names.now }
    {
        let logic = self.logic;
        let names = self.names.as_bytes();
        let stretch = &mut *self.stretch;
        let words = &mut *self.words;
        match entry {
            Entry::Arrow(from, to, value) => draft.arrow(logic, stretch, words, from, to, value),
            Entry::Mark(stage, mark, value) => draft.mark(
                logic, stretch, words, stage, mark, value,
            ),
            Entry::Line(word) => draft.line(logic, stretch, words, word),
            Entry::Text(text) => draft.text(logic, stretch, words, names, text.as_bytes()),
        }
    }

    // Settles a draft, and answers the rounds too. Refused, it hands the draft back.
    pub fn settle(&mut self, draft: Draft) -> Result<(Settled, u8), (Draft, Refusal)>
        ensures step { Step (logic_at L.Logic self.old.logic.now) (draft_on draft self.old.stretch.now self.old.words.now) Settle (settle_reply result) (settle_sheet result self.new.stretch.now self.new.words.now) }
        ensures logic { self.new.logic.now ≡ self.old.logic.now }
        ensures names { self.new.names.now ≡ self.old.names.now }
    {
        let logic = self.logic;
        let stretch = &mut *self.stretch;
        let words = &mut *self.words;
        draft.settle(logic, stretch, words)
    }

    // The value of a line at a stage.
    pub fn read(&self, settled: &Settled, line: u8, stage: u8) -> Result<L::Value, Refusal>
        ensures { Step (logic_at L.Logic self.now.logic.now) (settled_on settled.now self.now.stretch.now self.now.words.now) (read_at line stage) (read_reply result) (settled_on settled.now self.now.stretch.now self.now.words.now) }
    {
        settled.read(self.logic, self.stretch, self.words, line, stage)
    }

    // Turns a settled sheet back into a draft.
    pub fn reopen(&self, settled: Settled) -> Draft
        ensures { Step (logic_at L.Logic self.now.logic.now) (settled_on settled self.now.stretch.now self.now.words.now) Reopen done (draft_on result self.now.stretch.now self.now.words.now) }
    {
        settled.reopen(self.logic, self.stretch, self.words)
    }
}
