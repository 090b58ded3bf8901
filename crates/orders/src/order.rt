ghost use Rattle.std.specs.Prelude.{◌≡◌, ℕ, ◌%◌, ◌<◌, ◌≤◌, Bool, true};
ghost use Rattle.orders.specs.Finite.{Filled, every, every_pair, every_triple};
ghost use Rattle.orders.specs.Orders.{member, under, below_both, is_greatest, greatest_of, highest_of, meet_of, reversed_rows, cell_of};

use crate::operation::Operation;
use crate::place::Place;
use std::array;

// A relation "at or below" on the values below `count`. Nothing is known of its laws.
// Row v is the set of the values at or below v, value u being bit u.
#[derive(Drop)]
pub struct Order {
    pub count: u8,
    pub rows: [u16; 16],
    ghost least: { 2 ≤ count },
    ghost most: { count ≤ 16 },
}

// Whether v is in the set; a number past 15 is taken modulo 16.
pub fn is_member(values: u16, v: u8) -> bool
    ensures { result ≡ member values (v % 16) }
{
    (values >> (v % 16)) % 2 == 1
}

impl Order {
    // Whether u is at or below v.
    pub(crate) fn leq(&self, u: Place, v: Place) -> bool
        ensures { result ≡ under self.now.rows u.number v.number }
    {
        is_member(self.rows[v.index()], u.number)
    }

    // The set of the values at or below both.
    pub(crate) fn below(&self, u: Place, v: Place) -> u16
        ensures { (w : ℕ) → member result w ≡ below_both (under self.now.rows) u.number v.number w }
    {
        self.rows[u.index()] & self.rows[v.index()]
    }

    // Whether w is the greatest value of the set.
    pub(crate) fn is_greatest(&self, values: u16, w: Place) -> bool
        ensures { result ≡ is_greatest self.now.count (under self.now.rows) (member values) w.number }
    {
        let known = values & ((1u32 << self.count) - 1) as u16;
        is_member(values, w.number) && known & self.rows[w.index()] == known
    }

    // The greatest value of the set, or 0 where there is none.
    pub(crate) fn greatest(&self, values: u16) -> u8
        ensures { result ≡ greatest_of self.now.count (under self.now.rows) (member values) }
    {
        (0..self.count)
            .rfind(|w| self.is_greatest(values, Place::from(*w)))
            .unwrap_or(0)
    }

    // The value at or above every value, or 0 where there is none.
    pub(crate) fn highest(&self) -> u8
        ensures { result ≡ highest_of self.now.count (under self.now.rows) }
    {
        self.greatest(u16::MAX)
    }

    // Whether w is the greatest value at or below u and v.
    pub(crate) fn is_meet(&self, u: Place, v: Place, w: Place) -> bool
        ensures { result ≡ is_greatest self.now.count (under self.now.rows) (below_both (under self.now.rows) u.number v.number) w.number }
    {
        self.is_greatest(self.below(u, v), w)
    }

    // The greatest value at or below u and v, or 0 where there is none.
    pub(crate) fn meet(&self, u: Place, v: Place) -> u8
        ensures { result ≡ meet_of self.now.count (under self.now.rows) u.number v.number }
    {
        self.greatest(self.below(u, v))
    }

    // The meets of all values.
    pub(crate) fn meets(&self) -> Operation
        ensures { Filled (cell_of (meet_of self.now.count (under self.now.rows))) 256 result.cells }
    {
        Operation {
            cells: array::from_fn(|k| self.meet(Place::from(k / 16), Place::from(k % 16))),
        }
    }

    // The set of the values at or above u.
    pub(crate) fn above(&self, u: Place) -> u16
        ensures { (v : ℕ) → v < 16 → member result v ≡ under self.now.rows u.number v }
    {
        (0..16u8)
            .filter(|v| self.leq(u, Place::from(*v)))
            .fold(0, |values, v| values | 1 << v)
    }

    // The relation turned round, "at or above".
    pub(crate) fn reversed(&self) -> Order
        ensures counted { result.count ≡ self.now.count }
        ensures turned { reversed_rows self.now.rows result.rows ≡ true }
    {
        Order {
            count: self.count,
            rows: array::from_fn(|u| self.above(Place::from(u))),
        }
    }
}

// Tests of all values.
impl Order {
    // Whether each value passes.
    pub(crate) fn every<F: Fn(Place) -> bool>(&self, test: F) -> bool
        requires { F.IsAlwaysCallable test }
        ensures { (P : ℕ → Bool) → ((v : Place) (b : _) → F.post test v b → b ≡ P v.number) → result ≡ every self.now.count P }
    {
        (0..self.count).all(|v| test(Place::from(v)))
    }

    // Whether each pair of values passes.
    pub(crate) fn every_pair<F: Fn(Place, Place) -> bool>(&self, test: F) -> bool
        requires { F.IsAlwaysCallable test }
        ensures { (P : ℕ → ℕ → Bool) → ((u v : Place) (b : _) → F.post test u v b → b ≡ P u.number v.number) → result ≡ every_pair self.now.count P }
    {
        self.every(|u| self.every(|v| test(u, v)))
    }

    // Whether each triple of values passes.
    pub(crate) fn every_triple<F: Fn(Place, Place, Place) -> bool>(&self, test: F) -> bool
        requires { F.IsAlwaysCallable test }
        ensures { (P : ℕ → ℕ → ℕ → Bool) → ((u v w : Place) (b : _) → F.post test u v w b → b ≡ P u.number v.number w.number) → result ≡ every_triple self.now.count P }
    {
        self.every(|u| self.every_pair(|v, w| test(u, v, w)))
    }
}
