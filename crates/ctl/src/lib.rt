// Branching-time formulas over any logic: their values, their readings at a cut, and the theorems that join the two.
#![tactic(auto)]

ghost use Rattle.std.specs.Prelude.{◌≡◌, true, nat_le};
ghost use Rattle.scale.specs.Model.{most_values};
ghost use Rattle.ctl.specs.Operations.{ops_at};
ghost use Rattle.ctl.specs.Theorems.{Meaning};

use scale::Logic;

// Which of the paths that leave a stage an until speaks of: E one of them, A all.
#[derive(Clone, Copy)]
pub enum Paths {
    One,
    All,
}

// Whether formulas over a logic are read at its cuts: only a logic of at most 4,096 values has cuts.
// There every formula has one value, and its readings at the cuts tell that value.
pub fn has_readings<L: Logic>(logic: &L) -> bool
    ensures answer { result ≡ nat_le (L.Scale.model logic.now).size most_values }
    ensures meaning { result ≡ true → Meaning (ops_at L.Logic logic.now) }
{
    logic.size() <= 4096
}
