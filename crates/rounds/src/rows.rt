// The entries of rows, and rows written entry by entry.
ghost use Rattle.std.specs.Prelude.{◌≡◌, ℕ, ◌+◌, ◌*◌, ◌<◌, ◌≤◌, true, length, slice_index_or};
ghost use Rattle.ctl.specs.Operations.{ops_at, Valid, as_read};
ghost use Rattle.ctl.specs.Values.{ex, next};
ghost use Rattle.ctl.specs.Computed.{at};
ghost use Rattle.steps.specs.Stretch.{plan_of, Tells};
ghost use Rattle.steps.specs.Steps.{side_of, round_of, side_by, step_by};
ghost use Rattle.steps.specs.declared.Step.TheVariants.{Until as Settling};
ghost use Rattle.rounds.specs.Rows.{AllValues, IsRow, Turned};

use ctl::Paths;
use scale::Logic;
use steps::{Side, Until};

// What a step reads: the arrows and marks of so many stages, and behind them the rows of earlier lines.
#[derive(Drop)]
pub(crate) struct Given<'a, L: Logic> {
    pub(crate) logic: &'a L,
    pub(crate) values: &'a [L::Value],
    pub(crate) stages: usize,
    pub(crate) marks: usize,
    ghost entries: { stages * stages + stages * marks ≤ length values.now },
}

impl<L: Logic> Given<'_, L> {
    // The entry of a side at stage i.
    pub(crate) fn side(&self, side: Side, i: usize) -> L::Value
        requires stage { i < self.now.stages }
        requires lies { side_by self.now.stages (length self.now.values.now) side ≡ true }
        ensures { result ≡ side_of (ops_at L.Logic self.now.logic.now) self.now.values.now side i }
    {
        match side {
            Side::Bottom => self.logic.lowest(),
            Side::Top => self.logic.highest(),
            Side::At(place) => self.logic.reading(self.values[place + i]),
            Side::Not(place) => self.logic.opposite(self.values[place + i]),
        }
    }

    // The entry of mark m at stage i.
    pub(crate) fn mark(&self, m: usize, i: usize) -> L::Value
        requires stage { i < self.now.stages }
        requires mark { m < self.now.marks }
        ensures { let o = ops_at L.Logic self.now.logic.now in let p = plan_of o self.now.stages self.now.marks self.now.values.now in result ≡ as_read o (p.mark i m) }
    {
        let n = self.stages;
        self.logic
            .reading(self.values[n * n + (i * self.marks + m)])
    }

    // The opposite of a row's entry at stage i.
    pub(crate) fn opposite(&self, row: &[L::Value], i: usize) -> L::Value
        requires { i < length row.now }
        ensures { let o = ops_at L.Logic self.now.logic.now in result ≡ o.opposite (at o row.now i) }
    {
        self.logic.opposite(row[i])
    }

    // The entries of two sides at stage i.
    pub(crate) fn pair(&self, f: Side, g: Side, i: usize) -> (L::Value, L::Value)
        requires stage { i < self.now.stages }
        requires first { side_by self.now.stages (length self.now.values.now) f ≡ true }
        requires second { side_by self.now.stages (length self.now.values.now) g ≡ true }
        ensures first { result.0 ≡ side_of (ops_at L.Logic self.now.logic.now) self.now.values.now f i }
        ensures second { result.1 ≡ side_of (ops_at L.Logic self.now.logic.now) self.now.values.now g i }
    {
        let left = self.side(f, i);
        let right = self.side(g, i);
        (left, right)
    }

    // EX of a row at stage i. Each arrow is read once; the running join is not read again.
    pub(crate) fn ex(&self, row: &[L::Value], i: usize) -> L::Value
        requires stage { i < self.now.stages }
        requires row { IsRow (ops_at L.Logic self.now.logic.now) self.now.stages row.now }
        ensures { let o = ops_at L.Logic self.now.logic.now in let p = plan_of o self.now.stages self.now.marks self.now.values.now in result ≡ ex o p (at o row.now) i }
    {
        let from = i * self.stages;
        let arrows = &self.values[from..from + self.stages];
        let mut sum = self.logic.lowest();
        for (arrow, value) in arrows.iter().zip(row) {
            let along = self.logic.meet_values(self.logic.reading(*arrow), *value);
            sum = self.logic.join_values(sum, along);
        }
        sum
    }

    // What an until asks of the next stages of stage i: EX of a row, and along all paths AX of it too, which is made of the row's opposites.
    fn next(&self, paths: Paths, row: &[L::Value], turned: &[L::Value], i: usize) -> L::Value
        requires stage { i < self.now.stages }
        requires row { IsRow (ops_at L.Logic self.now.logic.now) self.now.stages row.now }
        requires turned { Turned (ops_at L.Logic self.now.logic.now) self.now.stages paths row.now turned.now }
        ensures { let o = ops_at L.Logic self.now.logic.now in let p = plan_of o self.now.stages self.now.marks self.now.values.now in result ≡ next o p paths (at o row.now) i }
    {
        match paths {
            Paths::One => self.ex(row, i),
            Paths::All => {
                let fails = self.ex(turned, i);
                let some = self.ex(row, i);
                self.logic.meet(self.logic.opposite(fails), some)
            }
        }
    }

    // One round of an until at stage i, from a row of values.
    pub(crate) fn round(
        &self,
        until: Until,
        row: &[L::Value],
        turned: &[L::Value],
        i: usize,
    ) -> L::Value
        requires stage { i < self.now.stages }
        requires lies { step_by self.now.stages self.now.marks (length self.now.values.now) (Settling until) ≡ true }
        requires row { IsRow (ops_at L.Logic self.now.logic.now) self.now.stages row.now }
        requires turned { Turned (ops_at L.Logic self.now.logic.now) self.now.stages until.paths row.now turned.now }
        ensures { let o = ops_at L.Logic self.now.logic.now in let p = plan_of o self.now.stages self.now.marks self.now.values.now in result ≡ round_of o p self.now.values.now until (at o row.now) i }
    {
        let Until { paths, before, end } = until;
        let next = self.next(paths, row, turned, i);
        let held = self.side(before, i);
        let reached = self.side(end, i);
        self.logic.join(reached, self.logic.meet(held, next))
    }
}

// Writes a row, entry by entry.
pub(crate) fn write<V: Copy, F: Fn(usize) -> V>(row: &mut [V], entry: F)
    requires { (i : ℕ) → i < length row.old → F.pre entry i }
    ensures { (i : ℕ) (d : V) → i < length row.old → F.post entry i (slice_index_or row.new i d) }
{
    for (i, value) in row.iter_mut().enumerate() {
        *value = entry(i);
    }
}

// Whether two values are equal: each is at or below the other. A value is `Copy` alone, so there is no `==`.
fn equal<L: Logic>(logic: &L, u: L::Value, v: L::Value) -> bool
    requires first { Valid (ops_at L.Logic logic.now) u }
    requires second { Valid (ops_at L.Logic logic.now) v }
    ensures { Tells result (u ≡ v) }
{
    logic.leq_values(u, v) && logic.leq_values(v, u)
}

// Whether two rows are the same.
pub(crate) fn same<L: Logic>(logic: &L, x: &[L::Value], y: &[L::Value]) -> bool
    requires sizes { length x.now ≡ length y.now }
    requires first { AllValues (ops_at L.Logic logic.now) x.now }
    requires second { AllValues (ops_at L.Logic logic.now) y.now }
    ensures { Tells result (x.now ≡ y.now) }
{
    for (u, v) in x.iter().zip(y) {
        if !equal(logic, *u, *v) {
            return false;
        }
    }
    true
}
