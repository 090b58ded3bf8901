ghost use Rattle.std.specs.Prelude.{◌≡◌, ℕ, ◌≤◌, Bool, true, false, Ok, Err};
ghost use Rattle.scale.specs.Refusals.{refusal_number};
ghost use Rattle.chains.specs.Ranges.{within};
ghost use Rattle.chains.specs.Chains.{chain as chain_model, chain_opposite, chain_partner};
ghost use Rattle.chains.specs.ChainLaws.{chain_lawful, chain_opposed};

use crate::within::Within;
use scale::{Logic, Refusal, Scale};

// A chain of n values, from 0 upward.
#[derive(Clone, Copy)]
pub struct Chain {
    n: Within<2, 64>,
}

impl Chain {
    // The chain of n values, from 2 to 64.
    pub fn new(n: u8) -> Result<Chain, Refusal>
        ensures { elim result [ Ok made ↦ (within 2 64 n ≡ true) × (made.n.number ≡ n) | Err e ↦ (within 2 64 n ≡ false) × (refusal_number e ≡ 10) ] }
    {
        Ok(Chain { n: Within::new(n)? })
    }
}

impl Scale for Chain {
    type Value = u8;

    ghost model = { λ s. chain_model s.n.number };

    ghost lawful = { λ s. chain_lawful s.n.number s.n.least s.n.most };

    fn lowest(&self) -> u8 {
        0
    }

    fn highest(&self) -> u8 {
        self.n.number - 1
    }

    fn is_value(&self, v: u8) -> bool {
        v < self.n.number
    }

    fn meet_values(&self, u: u8, v: u8) -> u8 {
        u.min(v)
    }

    fn join_values(&self, u: u8, v: u8) -> u8 {
        u.max(v)
    }

    fn leq_values(&self, u: u8, v: u8) -> bool {
        u <= v
    }

    fn cut_count(&self) -> u32 {
        self.n.number as u32 - 1
    }

    fn cut(&self, j: u32) -> Option<u8> {
        if j < self.cut_count() {
            Some(j as u8 + 1)
        } else {
            None
        }
    }

    fn ceiling(&self, j: u32) -> Option<u8> {
        if j < self.cut_count() {
            Some(j as u8)
        } else {
            None
        }
    }

    fn size(&self) -> u32 {
        u32::from(self.n.number)
    }

    fn value(&self, n: u32) -> Option<u8> {
        if n < self.size() { Some(n as u8) } else { None }
    }

    fn number(&self, v: u8) -> Option<u32> {
        if self.is_value(v) {
            Some(v as u32)
        } else {
            None
        }
    }
}

impl Logic for Chain {
    ghost opposes = { λ s. chain_opposite s.n.number };

    ghost partners = { λ s. chain_partner s.n.number };

    ghost opposed = { λ s. chain_opposed s.n.number s.n.least s.n.most };

    fn opposite_value(&self, v: u8) -> u8 {
        self.highest().saturating_sub(v)
    }

    fn partner(&self, j: u32) -> Option<u32> {
        if j < self.cut_count() {
            Some(self.n.number as u32 - 2 - j)
        } else {
            None
        }
    }
}
