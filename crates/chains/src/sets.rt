ghost use Rattle.std.specs.Prelude.{◌≡◌, ℕ, ◌-◌, ◌^◌, ◌<◌, ◌≤◌, Bool, true, false, Ok, Err};
ghost use Rattle.scale.specs.Refusals.{refusal_number};
ghost use Rattle.chains.specs.Ranges.{within};
ghost use Rattle.chains.specs.Sets.{sets as sets_model, sets_opposite, sets_partner};
ghost use Rattle.chains.specs.SetLaws.{sets_lawful, sets_opposed};

use crate::within::Within;
use scale::{Logic, Refusal, Scale};

// The sets of k members, as k-bit numbers.
#[derive(Clone, Copy)]
pub struct Sets {
    k: Within<1, 12>,
}

impl Sets {
    // The sets of k members, from 1 to 12.
    pub fn new(k: u8) -> Result<Sets, Refusal>
        ensures { elim result [ Ok made ↦ (within 1 12 k ≡ true) × (made.k.number ≡ k) | Err e ↦ (within 1 12 k ≡ false) × (refusal_number e ≡ 10) ] }
    {
        Ok(Sets { k: Within::new(k)? })
    }

    // The set of all members.
    fn all(&self) -> u16
        ensures value { result ≡ 2 ^ self.now.k.number - 1 }
        ensures less { result < 4096 }
    {
        (1u16 << self.k.number) - 1
    }
}

impl Scale for Sets {
    type Value = u16;

    ghost model = { λ s. sets_model s.k.number };

    ghost lawful = { λ s. sets_lawful s.k.number s.k.least s.k.most };

    fn lowest(&self) -> u16 {
        0
    }

    fn highest(&self) -> u16 {
        self.all()
    }

    fn is_value(&self, v: u16) -> bool {
        self.all() >= v
    }

    fn meet_values(&self, u: u16, v: u16) -> u16 {
        u & v
    }

    fn join_values(&self, u: u16, v: u16) -> u16 {
        u | v
    }

    fn leq_values(&self, u: u16, v: u16) -> bool {
        self.meet_values(u, v) == u
    }

    fn cut_count(&self) -> u32 {
        self.k.number as u32
    }

    fn cut(&self, j: u32) -> Option<u16> {
        if j < self.cut_count() {
            Some(1u16 << j)
        } else {
            None
        }
    }

    fn ceiling(&self, j: u32) -> Option<u16> {
        if j < self.cut_count() {
            Some(self.all() - (1u16 << j))
        } else {
            None
        }
    }

    fn size(&self) -> u32 {
        self.all() as u32 + 1
    }

    fn value(&self, n: u32) -> Option<u16> {
        if n <= self.all() as u32 {
            Some(n as u16)
        } else {
            None
        }
    }

    fn number(&self, v: u16) -> Option<u32> {
        if v <= self.all() {
            Some(v as u32)
        } else {
            None
        }
    }
}

impl Logic for Sets {
    ghost opposes = { λ s. sets_opposite s.k.number };

    ghost partners = { λ s. sets_partner };

    ghost opposed = { λ s. sets_opposed s.k.number s.k.least s.k.most };

    fn opposite_value(&self, v: u16) -> u16 {
        self.all().saturating_sub(v)
    }

    fn partner(&self, j: u32) -> Option<u32> {
        if j < self.cut_count() { Some(j) } else { None }
    }
}
