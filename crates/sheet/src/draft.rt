// A draft: it takes entries, and is settled.
ghost use Rattle.std.specs.Prelude.{◌≡◌, length, replicate};
ghost use Rattle.sheet.specs.Sheet.{Opens, Step, arrow as enter_arrow, mark as enter_mark, line as enter_line, text as enter_text, settle as Settle, draft_on, entry_reply, settle_reply, settle_sheet};
ghost use Rattle.sheet.specs.Logics.{logic_at};
ghost use Rattle.sheet.specs.Runs.{Law, Tells};

use crate::size::{MOST_LINES, Size};
use crate::state::{Draft, Refusal, Settled};
use formula::append;
use lines::Line;
use scale::Logic;

// Writes v over a slice. The library's `fill` asks that a clone of v cannot fail, which `Copy` does not say.
fn fill<V: Copy>(row: &mut [V], v: V)
    ensures { row.new ≡ replicate (length row.old) v }
{
    for entry in row.iter_mut() {
        *entry = v;
    }
}

impl Draft {
    // Opens a sheet of so many stages and marks: the whole stretch becomes lowest, and all words 0.
    pub fn open<L: Logic>(
        logic: &L,
        stretch: &mut [L::Value],
        words: &mut [u32],
        stages: u8,
        marks: u8,
    ) -> Result<Draft, Refusal>
        ensures opens { Opens (logic_at L.Logic logic.now) stages marks stretch.old words.old result stretch.new words.new }
        ensures law { Law (logic_at L.Logic logic.now) }
    {
        let size = Size::opened(stages, marks)?;
        size.check_lent(logic, stretch.len(), words.len())?;
        fill(stretch, logic.lowest());
        words.fill(0);
        Ok(Draft { size })
    }

    // Enters the value with a number at the arrow from one stage to another.
    pub fn arrow<L: Logic>(
        &mut self,
        logic: &L,
        stretch: &mut [L::Value],
        words: &[u32],
        from: u8,
        to: u8,
        number: u32,
    ) -> Result<(), Refusal>
        ensures step { Step (logic_at L.Logic logic.now) (draft_on self.old stretch.old words.now) (enter_arrow from to number) (entry_reply result) (draft_on self.new stretch.new words.now) }
        ensures law { Tells (logic_at L.Logic logic.now) (draft_on self.old stretch.old words.now) (enter_arrow from to number) (entry_reply result) }
    {
        self.size.check_lent(logic, stretch.len(), words.len())?;
        let place = self.size.arrow_place(from, to)?;
        stretch[place] = logic.value(number).ok_or(Refusal::Value)?;
        Ok(())
    }

    // Enters the value with a number at a mark of a stage.
    pub fn mark<L: Logic>(
        &mut self,
        logic: &L,
        stretch: &mut [L::Value],
        words: &[u32],
        stage: u8,
        mark: u8,
        number: u32,
    ) -> Result<(), Refusal>
        ensures step { Step (logic_at L.Logic logic.now) (draft_on self.old stretch.old words.now) (enter_mark stage mark number) (entry_reply result) (draft_on self.new stretch.new words.now) }
        ensures law { Tells (logic_at L.Logic logic.now) (draft_on self.old stretch.old words.now) (enter_mark stage mark number) (entry_reply result) }
    {
        self.size.check_lent(logic, stretch.len(), words.len())?;
        let place = self.size.mark_place(stage, mark)?;
        stretch[place] = logic.value(number).ok_or(Refusal::Value)?;
        Ok(())
    }

    // Appends the line of a word.
    pub fn line<L: Logic>(
        &mut self,
        logic: &L,
        stretch: &[L::Value],
        words: &mut [u32],
        word: u32,
    ) -> Result<(), Refusal>
        ensures step { Step (logic_at L.Logic logic.now) (draft_on self.old stretch.now words.old) (enter_line word) (entry_reply result) (draft_on self.new stretch.now words.new) }
        ensures law { Tells (logic_at L.Logic logic.now) (draft_on self.old stretch.now words.old) (enter_line word) (entry_reply result) }
    {
        self.size.check_lent(logic, stretch.len(), words.len())?;
        let count = self.size.held();
        if count >= MOST_LINES {
            return Err(Refusal::Full);
        }
        Line::read(word, count, self.size.marks)?;
        words[count as usize] = word;
        self.size.lines = count + 1;
        Ok(())
    }

    // Appends the lines of a formula's text; the names of the marks are listed in their order.
    pub fn text<L: Logic>(
        &mut self,
        logic: &L,
        stretch: &[L::Value],
        words: &mut [u32],
        names: &[u8],
        formula: &[u8],
    ) -> Result<(), Refusal>
        ensures step { Step (logic_at L.Logic logic.now) (draft_on self.old stretch.now words.old) (enter_text names.now formula.now) (entry_reply result) (draft_on self.new stretch.now words.new) }
        ensures law { Tells (logic_at L.Logic logic.now) (draft_on self.old stretch.now words.old) (enter_text names.now formula.now) (entry_reply result) }
    {
        self.size.check_lent(logic, stretch.len(), words.len())?;
        self.size.lines = append(names, formula, self.size.marks, self.size.lines, words)?;
        Ok(())
    }

    // Settles the draft: fills every line's answer row, and reports the greatest count of rounds. Refused, it hands the draft back.
    pub fn settle<L: Logic>(
        self,
        logic: &L,
        stretch: &mut [L::Value],
        words: &[u32],
    ) -> Result<(Settled, u8), (Draft, Refusal)>
        ensures step { Step (logic_at L.Logic logic.now) (draft_on self stretch.old words.now) Settle (settle_reply result) (settle_sheet result stretch.new words.now) }
        ensures law { Tells (logic_at L.Logic logic.now) (draft_on self stretch.old words.now) Settle (settle_reply result) }
    {
        let size = self.size;
        size.check_settle(logic, stretch.len(), words)
            .map_err(|why| (self, why))?;
        let rounds = size.settle_lines(logic, stretch, words);
        Ok((Settled { size }, rounds))
    }
}
