ghost use Rattle.std.specs.Prelude.{◌≡◌, Bool, true, false};
ghost use Rattle.compounds.specs.Twists.{twist_model, twist_opposite, twist_partner};
ghost use Rattle.compounds.specs.TwistLaws.{twist_lawful, twist_opposed};

use crate::halves::{Half, cut_half, product};
use scale::{Logic, Scale};

// A value of a twist: what speaks for, and what speaks against.
#[derive(Clone, Copy)]
pub struct TwistValue<V> {
    pub pro: V,
    pub con: V,
}

// The twist over a scale: a logic, though the scale beneath need have no opposite. Any scale makes one.
// It works as the pair of the scale and its dual would, but holds the scale once, and a pair holds both its parts.
#[derive(Drop)]
pub struct Twist<S> {
    pub scale: S,
}

impl<S: Scale> Scale for Twist<S> {
    type Value = TwistValue<S::Value>;

    ghost model = { λ s. twist_model (S.Scale.model s.scale) };

    ghost lawful = { λ s. twist_lawful _ (S.Scale.lawful s.scale) };

    fn lowest(&self) -> Self::Value {
        TwistValue {
            pro: self.scale.lowest(),
            con: self.scale.highest(),
        }
    }

    fn highest(&self) -> Self::Value {
        TwistValue {
            pro: self.scale.highest(),
            con: self.scale.lowest(),
        }
    }

    fn is_value(&self, v: Self::Value) -> bool {
        self.scale.is_value(v.pro) && self.scale.is_value(v.con)
    }

    fn meet_values(&self, u: Self::Value, v: Self::Value) -> Self::Value {
        TwistValue {
            pro: self.scale.meet_values(u.pro, v.pro),
            con: self.scale.join_values(u.con, v.con),
        }
    }

    fn join_values(&self, u: Self::Value, v: Self::Value) -> Self::Value {
        TwistValue {
            pro: self.scale.join_values(u.pro, v.pro),
            con: self.scale.meet_values(u.con, v.con),
        }
    }

    fn leq_values(&self, u: Self::Value, v: Self::Value) -> bool {
        self.scale.leq_values(u.pro, v.pro) && self.scale.leq_values(v.con, u.con)
    }

    fn cut_count(&self) -> u32 {
        let h = self.scale.cut_count();
        if self.size() > 4096 { 0 } else { h + h }
    }

    // First each cut of the scale beside highest, then lowest beside each ceiling.
    fn cut(&self, j: u32) -> Option<Self::Value> {
        match cut_half(self.size(), self.scale.cut_count(), j)? {
            Half::First(i) => {
                let pro = self.scale.cut(i)?;
                let con = self.scale.highest();
                Some(TwistValue { pro, con })
            }
            Half::Second(i) => {
                let con = self.scale.ceiling(i)?;
                let pro = self.scale.lowest();
                Some(TwistValue { pro, con })
            }
        }
    }

    fn ceiling(&self, j: u32) -> Option<Self::Value> {
        match cut_half(self.size(), self.scale.cut_count(), j)? {
            Half::First(i) => {
                let pro = self.scale.ceiling(i)?;
                let con = self.scale.lowest();
                Some(TwistValue { pro, con })
            }
            Half::Second(i) => {
                let con = self.scale.cut(i)?;
                let pro = self.scale.highest();
                Some(TwistValue { pro, con })
            }
        }
    }

    fn size(&self) -> u32 {
        product(self.scale.size(), self.scale.size())
    }

    fn value(&self, n: u32) -> Option<Self::Value> {
        let size = self.size();
        if n >= size || size > 4096 {
            return None;
        }
        let width = self.scale.size();
        let pro = self.scale.value(n / width)?;
        let con = self.scale.value(width - 1 - n % width)?;
        Some(TwistValue { pro, con })
    }

    fn number(&self, v: Self::Value) -> Option<u32> {
        if self.size() > 4096 {
            return None;
        }
        let pro = self.scale.number(v.pro)?;
        let con = self.scale.number(v.con)?;
        let width = self.scale.size();
        Some(pro * width + (width - 1 - con))
    }
}

impl<S: Scale> Logic for Twist<S> {
    ghost opposes = { λ s. twist_opposite };

    ghost partners = { λ s. twist_partner (S.Scale.model s.scale).cuts };

    ghost opposed = { λ s. twist_opposed _ (S.Scale.lawful s.scale) };

    fn opposite_value(&self, v: Self::Value) -> Self::Value {
        TwistValue {
            pro: v.con,
            con: v.pro,
        }
    }

    fn partner(&self, j: u32) -> Option<u32> {
        let h = self.scale.cut_count();
        match cut_half(self.size(), h, j)? {
            Half::First(i) => Some(h + i),
            Half::Second(i) if i < h => Some(i),
            Half::Second(_) => None,
        }
    }
}
