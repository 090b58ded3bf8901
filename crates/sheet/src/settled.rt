// A settled sheet: it gives readings, and is reopened.
ghost use Rattle.sheet.specs.Logics.{logic_at};
ghost use Rattle.sheet.specs.Runs.{Tells};
ghost use Rattle.sheet.specs.Sheet.{Step, read_at, reopen as Reopen, done, settled_on, draft_on, read_reply};

use crate::state::{Draft, Refusal, Settled};
use scale::Logic;

impl Settled {
    // The value of a line at a stage.
    pub fn read<L: Logic>(
        &self,
        logic: &L,
        stretch: &[L::Value],
        words: &[u32],
        line: u8,
        stage: u8,
    ) -> Result<L::Value, Refusal>
        ensures step { Step (logic_at L.Logic logic.now) (settled_on self.now stretch.now words.now) (read_at line stage) (read_reply result) (settled_on self.now stretch.now words.now) }
        ensures law { Tells (logic_at L.Logic logic.now) (settled_on self.now stretch.now words.now) (read_at line stage) (read_reply result) }
    {
        self.size.check_lent(logic, stretch.len(), words.len())?;
        let place = self.size.answer_place(line, stage)?;
        Ok(logic.reading(stretch[place]))
    }

    // Turns a settled sheet back into a draft, with all its entries.
    pub fn reopen<L: Logic>(self, logic: &L, stretch: &[L::Value], words: &[u32]) -> Draft
        ensures step { Step (logic_at L.Logic logic.now) (settled_on self stretch.now words.now) Reopen done (draft_on result stretch.now words.now) }
        ensures law { Tells (logic_at L.Logic logic.now) (settled_on self stretch.now words.now) Reopen done }
    {
        Draft { size: self.size }
    }
}
