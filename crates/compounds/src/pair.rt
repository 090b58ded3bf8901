ghost use Rattle.std.specs.Prelude.{◌≡◌, Bool, true, false};
ghost use Rattle.compounds.specs.Pairs.{pair_model, pair_opposite, pair_partner};
ghost use Rattle.compounds.specs.PairLaws.{pair_lawful, pair_opposed};

use crate::halves::{Half, cut_half, product};
use scale::{Logic, Scale};

// A value of a pair, part by part. Its type is not that of a twist's values, so that neither passes for the other.
#[derive(Clone, Copy)]
pub struct PairValue<A, B> {
    pub first: A,
    pub second: B,
}

// The pair of two scales or of two logics. Any two make one, so it is made by its parts.
#[derive(Drop)]
pub struct Pair<A, B> {
    pub first: A,
    pub second: B,
}

impl<A: Scale, B: Scale> Scale for Pair<A, B> {
    type Value = PairValue<A::Value, B::Value>;

    ghost model = { λ s. pair_model (A.Scale.model s.first) (B.Scale.model s.second) };

    ghost lawful = { λ s. pair_lawful _ _ (A.Scale.lawful s.first) (B.Scale.lawful s.second) };

    fn lowest(&self) -> Self::Value {
        PairValue {
            first: self.first.lowest(),
            second: self.second.lowest(),
        }
    }

    fn highest(&self) -> Self::Value {
        PairValue {
            first: self.first.highest(),
            second: self.second.highest(),
        }
    }

    fn is_value(&self, v: Self::Value) -> bool {
        self.first.is_value(v.first) && self.second.is_value(v.second)
    }

    fn meet_values(&self, u: Self::Value, v: Self::Value) -> Self::Value {
        PairValue {
            first: self.first.meet_values(u.first, v.first),
            second: self.second.meet_values(u.second, v.second),
        }
    }

    fn join_values(&self, u: Self::Value, v: Self::Value) -> Self::Value {
        PairValue {
            first: self.first.join_values(u.first, v.first),
            second: self.second.join_values(u.second, v.second),
        }
    }

    fn leq_values(&self, u: Self::Value, v: Self::Value) -> bool {
        self.first.leq_values(u.first, v.first) && self.second.leq_values(u.second, v.second)
    }

    fn cut_count(&self) -> u32 {
        if self.size() > 4096 {
            0
        } else {
            self.first.cut_count() + self.second.cut_count()
        }
    }

    // The first part's cuts come first, each with lowest beside it.
    fn cut(&self, j: u32) -> Option<Self::Value> {
        match cut_half(self.size(), self.first.cut_count(), j)? {
            Half::First(i) => {
                let first = self.first.cut(i)?;
                let second = self.second.lowest();
                Some(PairValue { first, second })
            }
            Half::Second(i) => {
                let second = self.second.cut(i)?;
                let first = self.first.lowest();
                Some(PairValue { first, second })
            }
        }
    }

    fn ceiling(&self, j: u32) -> Option<Self::Value> {
        match cut_half(self.size(), self.first.cut_count(), j)? {
            Half::First(i) => {
                let first = self.first.ceiling(i)?;
                let second = self.second.highest();
                Some(PairValue { first, second })
            }
            Half::Second(i) => {
                let second = self.second.ceiling(i)?;
                let first = self.first.highest();
                Some(PairValue { first, second })
            }
        }
    }

    fn size(&self) -> u32 {
        product(self.first.size(), self.second.size())
    }

    fn value(&self, n: u32) -> Option<Self::Value> {
        let size = self.size();
        if n >= size || size > 4096 {
            return None;
        }
        let width = self.second.size();
        let first = self.first.value(n / width)?;
        let second = self.second.value(n % width)?;
        Some(PairValue { first, second })
    }

    fn number(&self, v: Self::Value) -> Option<u32> {
        if self.size() > 4096 {
            return None;
        }
        let first = self.first.number(v.first)?;
        let second = self.second.number(v.second)?;
        Some(first * self.second.size() + second)
    }
}

impl<A: Logic, B: Logic> Logic for Pair<A, B> {
    ghost opposes = { λ s. pair_opposite (A.Logic.opposes s.first) (B.Logic.opposes s.second) };

    ghost partners = { λ s. pair_partner (A.Scale.model s.first).cuts (A.Logic.partners s.first) (B.Logic.partners s.second) };

    ghost opposed = { λ s.
        pair_opposed _ _
        (A.Scale.lawful s.first) (B.Scale.lawful s.second)
        _ _ (A.Logic.opposed s.first) _ _ (B.Logic.opposed s.second) };

    fn opposite_value(&self, v: Self::Value) -> Self::Value {
        PairValue {
            first: self.first.opposite_value(v.first),
            second: self.second.opposite_value(v.second),
        }
    }

    fn partner(&self, j: u32) -> Option<u32> {
        let h = self.first.cut_count();
        match cut_half(self.size(), h, j)? {
            Half::First(i) => self.first.partner(i),
            Half::Second(i) => {
                let second = self.second.partner(i)?;
                Some(h + second)
            }
        }
    }
}
