// Tables: logics of 2 to 16 values that are loaded from words.
#![tactic(auto)]

ghost use Rattle.std.specs.Prelude.{◌≡◌, ◌≤◌, true, ◌∷◌, length, nat_lt, replicate, is_ok, Ok, Err, Decides, MatchResult};
ghost use Rattle.orders.specs.Finite.{Filled};
ghost use Rattle.orders.specs.Orders.{under, ordered, latticed, spread, opposing, listed, meet_of, join_of, lowest_of, highest_of, cut_count_of, cell_of};
ghost use Rattle.orders.specs.Words.{rows_of, opposites_of, verdict};
ghost use Rattle.table.specs.Logics.{WritesLogic};
ghost use Rattle.scale.specs.Model.{only_if};
ghost use Rattle.table.specs.Cuts.{cut_entry, cuts_of as listed_cuts};
ghost use Rattle.table.specs.Tables.{table_model, table_partner};
ghost use Rattle.table.specs.Laws.{order_lawful, order_opposed};

pub mod bytes;
mod cuts;

use crate::cuts::{Cut, cuts_of};
use arrayvec::ArrayVec;
use orders::candidate::Candidate;
use orders::operation::Operation;
use orders::order::{Order, is_member};
use orders::place::Place;
use scale::{Logic, Refusal, Scale};

// A logic of 2 to 16 values. Row v is the set of the values at or below v, value u being bit u.
// Whatever table there is, its relation is a distributive lattice with opposites, and its other fields are what the relation has:
// the meet and the join of u and v stand in cell 16 u + v, the cuts are in the order of their values.
// The type has its arrays and their facts itself, and takes no whole `Candidate`, of which no law is known.
#[derive(Drop)]
pub struct Table {
    count: u8,
    rows: [u16; 16],
    opposites: [u8; 16],
    meets: Operation,
    joins: Operation,
    lowest: u8,
    highest: u8,
    cuts: ArrayVec<Cut, 16>,
    ghost least: { 2 ≤ count },
    ghost most: { count ≤ 16 },
    ghost order: { ordered count (under rows) ≡ true },
    ghost lattice: { latticed count (under rows) ≡ true },
    ghost distribution: { spread count (under rows) ≡ true },
    ghost opposition: { opposing count (under rows) (listed opposites) ≡ true },
    ghost met: { Filled (cell_of (meet_of count (under rows))) 256 meets.cells },
    ghost joined: { Filled (cell_of (join_of count (under rows))) 256 joins.cells },
    ghost bottom: { lowest ≡ lowest_of count (under rows) },
    ghost top: { highest ≡ highest_of count (under rows) },
    ghost cut: { cuts.items ≡ listed_cuts count (under rows) (listed opposites) },
}

// The words of the chain of 2.
const CHAIN: [u32; 2] = [0x60010001, 0x60000003];

impl Table {
    // The table that words make, or why they make none.
    fn read(words: &[u32]) -> Result<Table, Refusal>
        ensures { MatchResult result (λ t. (verdict words.now ≡ Ok tt) × (t.count ≡ length words.now) × (t.rows ≡ rows_of words.now) × (t.opposites ≡ opposites_of words.now)) (λ e. verdict words.now ≡ Err e) }
    {
        let candidate = Candidate::read(words).ok_or(Refusal::Order)?;
        candidate.check_laws()?;
        let lowest = candidate.lowest();
        let highest = candidate.highest();
        let cuts = cuts_of(&candidate);
        let Candidate {
            order: Order { count, rows, .. },
            opposites,
            meets,
            joins,
            ..
        } = candidate;
        Ok(Table {
            count,
            rows,
            opposites,
            meets,
            joins,
            lowest,
            highest,
            cuts,
        })
    }

    // Cut j, or none past the count.
    fn cut_at(&self, j: u32) -> Option<Cut>
        ensures { result ≡ only_if (nat_lt j (cut_count_of self.now.count (under self.now.rows))) (cut_entry self.now.count (under self.now.rows) (listed self.now.opposites) j) }
    {
        self.cuts.get(j as usize).copied()
    }

    // The chain of 2.
    pub fn new() -> Table
        ensures count { result.count ≡ 2 }
        ensures rows { result.rows ≡ 1 ∷ 3 ∷ replicate 14 0 }
        ensures opposites { result.opposites ≡ 1 ∷ 0 ∷ replicate 14 0 }
    {
        Table::read(&CHAIN).unwrap()
    }

    // Replaces the table by the one that the words make, or refuses them and keeps it.
    pub fn load(&mut self, words: &[u32]) -> Result<(), Refusal>
        ensures answer { result ≡ verdict words.now }
        ensures exact { Decides (is_ok result) (WritesLogic words.now) }
        ensures made { elim result [ Ok _ ↦ (self.new.count ≡ length words.now) × (self.new.rows ≡ rows_of words.now) × (self.new.opposites ≡ opposites_of words.now) | Err _ ↦ self.new ≡ self.old ] }
    {
        *self = Table::read(words)?;
        Ok(())
    }
}

impl Scale for Table {
    type Value = u8;

    ghost model = { λ s. table_model s.count s.rows };

    ghost lawful = { λ s. order_lawful s.count (under s.rows) s.least s.most s.order s.lattice s.distribution };

    fn lowest(&self) -> u8 {
        self.lowest
    }

    fn highest(&self) -> u8 {
        self.highest
    }

    fn is_value(&self, v: u8) -> bool {
        v < self.count
    }

    fn meet_values(&self, u: u8, v: u8) -> u8 {
        self.meets.at(u, v)
    }

    fn join_values(&self, u: u8, v: u8) -> u8 {
        self.joins.at(u, v)
    }

    fn leq_values(&self, u: u8, v: u8) -> bool {
        is_member(self.rows[Place::from(v).index()], u)
    }

    fn cut_count(&self) -> u32 {
        self.cuts.len() as u32
    }

    fn cut(&self, j: u32) -> Option<u8> {
        Some(self.cut_at(j)?.value)
    }

    fn ceiling(&self, j: u32) -> Option<u8> {
        Some(self.cut_at(j)?.ceiling)
    }

    fn size(&self) -> u32 {
        self.count as u32
    }

    fn value(&self, n: u32) -> Option<u8> {
        if n < self.size() { Some(n as u8) } else { None }
    }

    fn number(&self, v: u8) -> Option<u32> {
        self.is_value(v).then_some(v as u32)
    }
}

impl Logic for Table {
    ghost opposes = { λ s. listed s.opposites };

    ghost partners = { λ s. table_partner s.count s.rows s.opposites };

    ghost opposed = { λ s. order_opposed s.count (under s.rows) s.least s.most s.order s.lattice s.distribution (listed s.opposites) s.opposition };

    fn opposite_value(&self, v: u8) -> u8 {
        self.opposites[Place::from(v).index()]
    }

    fn partner(&self, j: u32) -> Option<u32> {
        Some(self.cut_at(j)?.partner as u32)
    }
}

#[cfg(test)]
mod tests {
    use super::*;

    // Values F 0, N 1, DK 2, DC 3, S 4, T 5.
    const SIX: [u32; 6] = [
        0x60050001, 0x60040003, 0x60020007, 0x6003000B, 0x6001001F, 0x6000003F,
    ];

    // The number of the refusal that words get, or 0.
    fn refusal(words: &[u32]) -> u8 {
        let mut table = Table::new();
        match table.load(words) {
            Ok(()) => 0,
            Err(r) => r.number(),
        }
    }

    #[test]
    fn new_is_the_chain_of_two(rt: HostRuntime) {
        let t = Table::new();
        assert!(rt; t.size() == 2 && t.cut_count() == 1);
        assert!(rt; t.lowest() == 0 && t.highest() == 1);
        assert!(rt; t.leq(0, 1) && !t.leq(1, 0));
        assert_eq!(rt; t.partner(0), Some(0));
        assert!(rt; t.opposite(0) == 1);
    }

    #[test]
    fn six_values(rt: HostRuntime) {
        let mut t = Table::new();
        assert!(rt; t.load(&SIX).is_ok());
        assert!(rt; t.size() == 6);
        assert!(rt; t.join(2, 3) == 4 && t.meet(2, 3) == 1);
        assert!(rt; t.join(2, 6) == 2 && t.meet(200, 5) == 0);
        assert!(rt; t.leq(2, 4) && !t.leq(2, 3) && !t.leq(4, 2));
        assert!(rt; t.opposite(1) == 4 && t.opposite(2) == 2 && t.opposite(7) == 5);
        assert_eq!(rt; t.number(5), Some(5));
        assert_eq!(rt; t.number(6), None);
        assert_eq!(rt; t.value(6), None);
    }

    #[test]
    fn six_cuts(rt: HostRuntime) {
        let mut t = Table::new();
        assert!(rt; t.load(&SIX).is_ok());
        assert!(rt; t.cut_count() == 4);
        assert_eq!(rt; t.cut(0), Some(1));
        assert_eq!(rt; t.cut(3), Some(5));
        assert_eq!(rt; t.cut(4), None);
        assert_eq!(rt; t.ceiling(0), Some(0));
        assert_eq!(rt; t.ceiling(1), Some(3));
        assert_eq!(rt; t.ceiling(3), Some(4));
        assert_eq!(rt; t.partner(0), Some(3));
        assert_eq!(rt; t.partner(1), Some(2));
        assert_eq!(rt; t.partner(2), Some(1));
        assert_eq!(rt; t.partner(3), Some(0));
        assert_eq!(rt; t.partner(4), None);
    }

    #[test]
    fn laws_refused(rt: HostRuntime) {
        assert!(rt; refusal(&[0x60000001]) == 11);
        assert!(rt; refusal(&[0x60000001, 0x60010001]) == 11);
        assert!(rt; refusal(&[0x60010001, 0x60000002]) == 12);
        assert!(rt; refusal(&[0x60040001, 0x60010003, 0x60020005, 0x60030009, 0x6000001F]) == 13);
        assert!(rt; refusal(&[0x60000001, 0x60010003]) == 14);
        assert!(rt; refusal(&[0x60020001, 0x60000003]) == 14);
    }

    #[test]
    fn layouts_refused(rt: HostRuntime) {
        assert!(rt; refusal(&[0x60010001, 0x60000003]) == 0);
        assert!(rt; refusal(&[0x50010001, 0x60000003]) == 11);
        assert!(rt; refusal(&[0x60010001, 0x60100003]) == 11);
        assert!(rt; refusal(&[0x60010001, 0x60000007]) == 11);
        assert!(rt; refusal(&[]) == 11);
    }

    // The words of a chain of 17, of which the first 16 are those of the chain of 16.
    const LONG: [u32; 17] = [
        0x600F0001, 0x600E0003, 0x600D0007, 0x600C000F, 0x600B001F, 0x600A003F, 0x6009007F,
        0x600800FF, 0x600701FF, 0x600603FF, 0x600507FF, 0x60040FFF, 0x60031FFF, 0x60023FFF,
        0x60017FFF, 0x6000FFFF, 0x6000FFFF,
    ];

    #[test]
    fn sixteen_values(rt: HostRuntime) {
        let mut t = Table::new();
        assert!(rt; refusal(&LONG) == 11);
        assert!(rt; t.load(&LONG[0..16]).is_ok());
        assert!(rt; t.size() == 16 && t.cut_count() == 15);
        assert!(rt; t.join(14, 15) == 15 && t.meet(14, 15) == 14);
        assert_eq!(rt; t.ceiling(14), Some(14));
        assert_eq!(rt; t.partner(14), Some(0));
    }

    #[test]
    fn lowest_past_zero(rt: HostRuntime) {
        let mut t = Table::new();
        assert!(rt; t.load(&[0x60010003, 0x60000002]).is_ok());
        assert!(rt; t.lowest() == 1 && t.highest() == 0);
        assert!(rt; t.reading(2) == 1 && t.leq(1, 0));
        assert_eq!(rt; t.cut(0), Some(0));
    }

    #[test]
    fn a_refused_load_keeps_the_table(rt: HostRuntime) {
        let mut t = Table::new();
        assert!(rt; t.load(&SIX[0..5]).is_err());
        assert!(rt; t.size() == 2);
        assert!(rt; t.load(&SIX).is_ok());
        assert!(rt; t.load(&[0x60000001, 0x60010003]).is_err());
        assert!(rt; t.size() == 6 && t.join(2, 3) == 4);
    }
}
