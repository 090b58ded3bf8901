// An until, settled by rounds in the two work rows.
ghost use Rattle.std.specs.Prelude.{◌≡◌, true, length};
ghost use Rattle.ctl.specs.Computed.{at};
ghost use Rattle.ctl.specs.Operations.{ops_at, Small};
ghost use Rattle.ctl.specs.Values.{Same};
ghost use Rattle.steps.specs.declared.Step.TheVariants.{Until as Settling};
ghost use Rattle.steps.specs.Stretch.{plan_of};
ghost use Rattle.steps.specs.Steps.{round_of, step_by};
ghost use Rattle.rounds.specs.Rows.{IsRow, Turned, Rested};

use crate::rows::{Given, same, write};
use ctl::Paths;
use scale::Logic;
use steps::Until;

impl<L: Logic> Given<'_, L> {
    // Along all paths, AX is asked too: writes the opposites of a row, of which it is made.
    fn turn(&self, paths: Paths, row: &[L::Value], turned: &mut [L::Value])
        requires row { IsRow (ops_at L.Logic self.now.logic.now) self.now.stages row.now }
        requires size { length turned.old ≡ self.now.stages }
        ensures { Turned (ops_at L.Logic self.now.logic.now) self.now.stages paths row.now turned.new }
    {
        match paths {
            Paths::One => {}
            Paths::All => write(turned, |i| self.opposite(row, i)),
        }
    }

    // One round: writes the next row from a row of values.
    fn run_round(
        &self,
        until: Until,
        row: &[L::Value],
        turned: &mut [L::Value],
        next: &mut [L::Value],
    )
        requires lies { step_by self.now.stages self.now.marks (length self.now.values.now) (Settling until) ≡ true }
        requires row { IsRow (ops_at L.Logic self.now.logic.now) self.now.stages row.now }
        requires turned_size { length turned.old ≡ self.now.stages }
        requires next_size { length next.old ≡ self.now.stages }
        ensures { let o = ops_at L.Logic self.now.logic.now in let p = plan_of o self.now.stages self.now.marks self.now.values.now in Same self.now.stages (at o next.new) (round_of o p self.now.values.now until (at o row.now)) }
    {
        self.turn(until.paths, row, turned);
        let turned = &*turned;
        write(next, |i| self.round(until, row, turned, i));
    }

    // Settles an until: leaves its row in `row`, and says how many rounds changed something. The two other rows are free.
    pub(crate) fn settle_until(
        &self,
        until: Until,
        row: &mut [L::Value],
        turned: &mut [L::Value],
        next: &mut [L::Value],
    ) -> usize
        requires small { Small (L.Scale.model self.now.logic.now) }
        requires lies { step_by self.now.stages self.now.marks (length self.now.values.now) (Settling until) ≡ true }
        requires row_size { length row.old ≡ self.now.stages }
        requires turned_size { length turned.old ≡ self.now.stages }
        requires next_size { length next.old ≡ self.now.stages }
        ensures { Rested (ops_at L.Logic self.now.logic.now) self.now.stages self.now.marks self.now.values.now until result row.new }
    {
        write(row, |_i| self.logic.lowest());
        let mut count: usize = 0;
        'rounds: loop {
            self.run_round(until, row, turned, next);
            if same(self.logic, row, next) {
                break 'rounds count;
            }
            row.copy_from_slice(next);
            count += 1;
        }
    }
}
