// The operations by numbers, as tables, plan files and reports name values: none where a number names no value.
ghost use Rattle.std.specs.Prelude.{◌≡◌};
ghost use Rattle.scale.specs.Numbers.{numbered_values, meet_number, join_number, leq_number, opposite_number, cut_number, ceiling_number};

use crate::{Logic, Scale};

// The values with numbers i and j.
fn values<S: Scale>(scale: &S, i: u32, j: u32) -> Option<(S::Value, S::Value)>
    ensures { result ≡ numbered_values (S.Scale.model scale.now) i j }
{
    Some((scale.value(i)?, scale.value(j)?))
}

// The number of the meet of values i and j.
pub fn meet<S: Scale>(scale: &S, i: u32, j: u32) -> Option<u32>
    ensures { result ≡ meet_number (S.Scale.model scale.now) i j }
{
    let (u, v) = values(scale, i, j)?;
    scale.number(scale.meet_values(u, v))
}

// The number of the join of values i and j.
pub fn join<S: Scale>(scale: &S, i: u32, j: u32) -> Option<u32>
    ensures { result ≡ join_number (S.Scale.model scale.now) i j }
{
    let (u, v) = values(scale, i, j)?;
    scale.number(scale.join_values(u, v))
}

// Whether value i is at or below value j.
pub fn leq<S: Scale>(scale: &S, i: u32, j: u32) -> Option<bool>
    ensures { result ≡ leq_number (S.Scale.model scale.now) i j }
{
    let (u, v) = values(scale, i, j)?;
    Some(scale.leq_values(u, v))
}

// The number of the opposite of value i.
pub fn opposite<L: Logic>(logic: &L, i: u32) -> Option<u32>
    ensures { result ≡ opposite_number (L.Scale.model logic.now) (L.Logic.opposes logic.now) i }
{
    let v = logic.value(i)?;
    logic.number(logic.opposite_value(v))
}

// The number of the value of cut j.
pub fn cut<S: Scale>(scale: &S, j: u32) -> Option<u32>
    ensures { result ≡ cut_number (S.Scale.model scale.now) j }
{
    let v = scale.cut(j)?;
    scale.number(v)
}

// The number of the ceiling of cut j.
pub fn ceiling<S: Scale>(scale: &S, j: u32) -> Option<u32>
    ensures { result ≡ ceiling_number (S.Scale.model scale.now) j }
{
    let v = scale.ceiling(j)?;
    scale.number(v)
}
