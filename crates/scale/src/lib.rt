// Scales (finite distributive lattices) and logics (scales with an opposite), as traits that hold their laws.
#![tactic(auto)]

ghost use Rattle.std.specs.Prelude.{◌≡◌, ℕ, ◌<◌, Bool, true, Some, nat_lt};
ghost use Rattle.scale.specs.Model.{Model, Is, read, only_if, cut_at, ceiling_at, value_at, number_of};
ghost use Rattle.scale.specs.Laws.{Lawful, Opposed};
ghost use Rattle.scale.specs.Refusals.{refusal_number, refusal_name, shown_refusal};

use std::fmt;

pub mod numbers;

// Why a logic was refused.
#[derive(Clone, Copy, PartialEq, Eq, Debug)]
pub enum Refusal {
    Logic = 10,
    Order = 11,
    Lattice = 12,
    Distribution = 13,
    Opposite = 14,
}

impl Refusal {
    // The number that reports give.
    pub fn number(self) -> u8
        ensures { result ≡ refusal_number self }
    {
        self as u8
    }

    // The name that reports give. (`Debug` writes the same names, but lends none.)
    pub fn name(self) -> &'static str
        ensures { result.now ≡ refusal_name self }
    {
        match self {
            Refusal::Logic => "Logic",
            Refusal::Order => "Order",
            Refusal::Lattice => "Lattice",
            Refusal::Distribution => "Distribution",
            Refusal::Opposite => "Opposite",
        }
    }
}

// A refusal by its number and name, as `12 Lattice`.
impl fmt::Display for Refusal {
    ghost output = { λ r. Some (shown_refusal r) };

    fn fmt<W: fmt::Write>(&self, f: &mut fmt::Formatter<W>) -> fmt::Result {
        let number = self.number();
        let name = self.name();
        write!(f, "{number} {name}")
    }
}

// A finite distributive lattice. Not every pattern of `Value` need be a value of it.
pub trait Scale {
    type Value: Copy;

    ghost model: { Self → Model Self.Value };

    fn lowest(&self) -> Self::Value
        ensures { result ≡ (model self.now).lowest };

    fn highest(&self) -> Self::Value
        ensures { result ≡ (model self.now).highest };

    // Whether a pattern is a value.
    fn is_value(&self, v: Self::Value) -> bool
        ensures { result ≡ (model self.now).valid v };

    // The operations on values test nothing: of patterns that are no values they say nothing.
    fn meet_values(&self, u: Self::Value, v: Self::Value) -> Self::Value
        ensures { Is (model self.now) u → Is (model self.now) v → result ≡ (model self.now).meet u v };

    fn join_values(&self, u: Self::Value, v: Self::Value) -> Self::Value
        ensures { Is (model self.now) u → Is (model self.now) v → result ≡ (model self.now).join u v };

    // Whether u is at or below v.
    fn leq_values(&self, u: Self::Value, v: Self::Value) -> bool
        ensures { Is (model self.now) u → Is (model self.now) v → result ≡ (model self.now).leq u v };

    fn cut_count(&self) -> u32
        ensures { result ≡ (model self.now).cuts };

    // The value of cut j, or none past the count.
    fn cut(&self, j: u32) -> Option<Self::Value>
        ensures { result ≡ cut_at (model self.now) j };

    // The greatest value that cut j is not at or below, or none past the count.
    fn ceiling(&self, j: u32) -> Option<Self::Value>
        ensures { result ≡ ceiling_at (model self.now) j };

    // How many values there are, or 4,097 for more than 4,096.
    fn size(&self) -> u32
        ensures { result ≡ (model self.now).size };

    // The value with a number, or none.
    fn value(&self, n: u32) -> Option<Self::Value>
        ensures { result ≡ value_at (model self.now) n };

    // The number of a value, or none.
    fn number(&self, v: Self::Value) -> Option<u32>
        ensures { result ≡ number_of (model self.now) v };

    // The pattern itself, or lowest where it is no value.
    fn reading(&self, v: Self::Value) -> Self::Value
        ensures is { result ≡ read (model self.now) v }
        ensures value { Is (model self.now) result }
    {
        if self.is_value(v) { v } else { self.lowest() }
    }

    // The operations on patterns: each pattern is read first.
    fn meet(&self, u: Self::Value, v: Self::Value) -> Self::Value
        ensures { result ≡ (model self.now).meet (read (model self.now) u) (read (model self.now) v) }
    {
        self.meet_values(self.reading(u), self.reading(v))
    }

    fn join(&self, u: Self::Value, v: Self::Value) -> Self::Value
        ensures { result ≡ (model self.now).join (read (model self.now) u) (read (model self.now) v) }
    {
        self.join_values(self.reading(u), self.reading(v))
    }

    fn leq(&self, u: Self::Value, v: Self::Value) -> bool
        ensures { result ≡ (model self.now).leq (read (model self.now) u) (read (model self.now) v) }
    {
        self.leq_values(self.reading(u), self.reading(v))
    }

    ghost lawful: { (s : Self) → Lawful (model s) };
}

// A scale with an opposite for each value and a partner for each cut.
pub trait Logic: Scale {
    ghost opposes: { Self → Self.Value → Self.Value };

    ghost partners: { Self → ℕ → ℕ };

    // The opposite of a value: of a pattern that is no value it says nothing.
    fn opposite_value(&self, v: Self::Value) -> Self::Value
        ensures { Is (Self.Scale.model self.now) v → result ≡ opposes self.now v };

    // The partner of cut j, or none past the count.
    fn partner(&self, j: u32) -> Option<u32>
        ensures { result ≡ only_if (nat_lt j (Self.Scale.model self.now).cuts) (partners self.now j) };

    // The opposite of what a pattern is read as.
    fn opposite(&self, v: Self::Value) -> Self::Value
        ensures { result ≡ opposes self.now (read (Self.Scale.model self.now) v) }
    {
        self.opposite_value(self.reading(v))
    }

    ghost opposed: { (s : Self) → Opposed (Self.Scale.model s) (opposes s) (partners s) };
}
