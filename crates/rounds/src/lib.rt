// Settling the line of a sheet, over any logic, in a lent stretch of values.
#![tactic(auto)]

ghost use Rattle.std.specs.Prelude.{◌≡◌, ℕ, ◌+◌, ◌*◌, ◌≤◌, true, length, take, is_some, Some, None};
ghost use Rattle.ctl.specs.Computed.{at};
ghost use Rattle.ctl.specs.Operations.{ops_at, Small};
ghost use Rattle.steps.specs.Stretch.{row, plan_of, Kept};
ghost use Rattle.steps.specs.Steps.{RowOf, step_by};
ghost use Rattle.rounds.specs.Rows.{Prepared, RowSettled, KeptFrom};
ghost use Rattle.rounds.specs.Settled.{settleable, Settled};

mod rows;
mod untils;

use ctl::has_readings;
use rows::{Given, write};
use scale::Logic;
use steps::{Side, Step};

impl<L: Logic> Given<'_, L> {
    // Does all but the last write of a step: fills the work row that its row is written from, if it has one, and says how many rounds of an until
    // changed something.
    fn prepare(
        &self,
        step: Step,
        row: &mut [L::Value],
        work: &mut [L::Value],
        next: &mut [L::Value],
    ) -> usize
        requires small { Small (L.Scale.model self.now.logic.now) }
        requires lies { step_by self.now.stages self.now.marks (length self.now.values.now) step ≡ true }
        requires row_size { length row.old ≡ self.now.stages }
        requires work_size { length work.old ≡ self.now.stages }
        requires next_size { length next.old ≡ self.now.stages }
        ensures { Prepared (ops_at L.Logic self.now.logic.now) self.now.stages self.now.marks self.now.values.now step result work.new }
    {
        match step {
            Step::Mark(_) | Step::Copied(_) | Step::And(_, _) | Step::Or(_, _) => 0,
            Step::Ex(place) => {
                write(work, |i| self.side(Side::At(place), i));
                0
            }
            Step::Ax(place) => {
                write(work, |i| self.side(Side::Not(place), i));
                0
            }
            Step::Until(until) | Step::Dual(until) => self.settle_until(until, work, row, next),
        }
    }

    // Writes the row of a step, from the work row where it has one.
    fn finish(&self, step: Step, row: &mut [L::Value], work: &[L::Value])
        requires lies { step_by self.now.stages self.now.marks (length self.now.values.now) step ≡ true }
        requires row_size { length row.old ≡ self.now.stages }
        requires work_size { length work.now ≡ self.now.stages }
        requires prepared { (k : ℕ) × Prepared (ops_at L.Logic self.now.logic.now) self.now.stages self.now.marks self.now.values.now step k work.now }
        ensures { let o = ops_at L.Logic self.now.logic.now in let p = plan_of o self.now.stages self.now.marks self.now.values.now in RowOf o p self.now.values.now step (at o row.new) }
    {
        match step {
            Step::Mark(m) => write(row, |i| self.mark(m, i)),
            Step::Copied(f) => write(row, |i| self.side(f, i)),
            Step::And(f, g) => {
                write(row, |i| {
                    let (left, right) = self.pair(f, g, i);
                    self.logic.meet(left, right)
                })
            }
            Step::Or(f, g) => {
                write(row, |i| {
                    let (left, right) = self.pair(f, g, i);
                    self.logic.join(left, right)
                })
            }
            Step::Ex(_) => write(row, |i| self.ex(work, i)),
            Step::Ax(_) => write(row, |i| self.logic.opposite(self.ex(work, i))),
            Step::Until(_) => row.copy_from_slice(work),
            Step::Dual(_) => write(row, |i| self.opposite(work, i)),
        }
    }

    // Settles a step: writes its row, and says how many rounds of an until changed something. The work rows are left free.
    fn settle(
        &self,
        step: Step,
        row: &mut [L::Value],
        work: &mut [L::Value],
        next: &mut [L::Value],
    ) -> usize
        requires small { Small (L.Scale.model self.now.logic.now) }
        requires lies { step_by self.now.stages self.now.marks (length self.now.values.now) step ≡ true }
        requires row_size { self.now.stages ≤ length row.old }
        requires work_size { length work.old ≡ self.now.stages }
        requires next_size { self.now.stages ≤ length next.old }
        ensures row { let o = ops_at L.Logic self.now.logic.now in RowSettled o self.now.stages self.now.marks self.now.values.now step result (at o row.new) }
        ensures beside { KeptFrom (ops_at L.Logic self.now.logic.now) self.now.stages row.old row.new }
        ensures behind { KeptFrom (ops_at L.Logic self.now.logic.now) self.now.stages next.old next.new }
    {
        let (row, _) = row.split_at_mut(self.stages);
        let (next, _) = next.split_at_mut(self.stages);
        let count = self.prepare(step, row, work, next);
        self.finish(step, row, work);
        count
    }
}

// Settles a step whose row is at `to` above, and whose two work rows are the first below.
fn settle_apart<L: Logic>(
    logic: &L,
    above: &mut [L::Value],
    below: &mut [L::Value],
    n: usize,
    a: usize,
    step: Step,
    to: usize,
) -> usize
    requires small { Small (L.Scale.model logic.now) }
    requires entries { n * n + n * a ≤ to }
    requires lies { step_by n a to step ≡ true }
    requires row_size { to + n ≤ length above.old }
    requires work_size { n + n ≤ length below.old }
    ensures row { RowSettled (ops_at L.Logic logic.now) n a (take to above.old) step result (row (ops_at L.Logic logic.now) above.new to) }
    ensures above { Kept (ops_at L.Logic logic.now) to n above.old above.new }
    ensures below { KeptFrom (ops_at L.Logic logic.now) (n + n) below.old below.new }
{
    let (values, row) = above.split_at_mut(to);
    let (work, next) = below.split_at_mut(n);
    let given = Given {
        logic,
        values,
        stages: n,
        marks: a,
    };
    given.settle(step, row, work, next)
}

// Settles the step of a line, on a stretch that holds n stages and a marks: writes the row at `to`, and says how many rounds of an until
// changed something. The stretch may hold any patterns: those that are no values are read as lowest. The two rows at `work` are left free.
// Where the logic has no cuts or the rows are not laid in order, the answer is none, and nothing is changed.
pub fn settle_step<L: Logic>(
    logic: &L,
    stretch: &mut [L::Value],
    n: usize,
    a: usize,
    step: Step,
    to: usize,
    work: usize,
) -> Option<usize>
    ensures answer { is_some result ≡ settleable (L.Scale.model logic.now) n a step to work (length stretch.old) }
    ensures memory { elim result [ Some k ↦ Settled (ops_at L.Logic logic.now) n a step to work stretch.old k stretch.new | None ↦ stretch.new ≡ stretch.old ] }
{
    if !has_readings(logic) || !step.is_laid(n, a, to, work, stretch.len()) {
        return None;
    }
    let (above, below) = stretch.split_at_mut(work);
    Some(settle_apart(logic, above, below, n, a, step, to))
}
