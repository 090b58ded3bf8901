ghost use Rattle.std.specs.Prelude.{◌≡◌, ℕ, ◌%◌, ◌<◌, true, false, length, MatchOption, slice_index};
ghost use Rattle.orders.specs.Finite.{Filled};
ghost use Rattle.orders.specs.Orders.{implies as implies_test, under, meet_of, join_of, highest_of, lowest_of, irreducible, ceiling_of, order_at, bounded_at, spread_at, opposed_at, irreducible_at, listed, reversed_rows, cell_of};
ghost use Rattle.orders.specs.Words.{readable, rows_of, opposites_of, law_verdict};

use crate::operation::Operation;
use crate::order::Order;
use crate::place::Place;
use crate::words::{are_readable, read_opposites, read_rows};
use scale::Refusal;

// What words write, before anything is known of its laws: a relation, the relation turned round,
// an opposite for each value, and the meets and joins of all values.
#[derive(Drop)]
pub struct Candidate {
    pub order: Order,
    pub reverse: Order,
    pub opposites: [u8; 16],
    pub meets: Operation,
    pub joins: Operation,
    ghost counted: { reverse.count ≡ order.count },
    ghost turns: { reversed_rows order.rows reverse.rows ≡ true },
    ghost small: { (k : ℕ) → slice_index opposites k < 16 },
    ghost met: { Filled (cell_of (meet_of order.count (under order.rows))) 256 meets.cells },
    ghost joined: { Filled (cell_of (join_of order.count (under order.rows))) 256 joins.cells },
}

impl Candidate {
    // What the words write, or none where their count or their layout is wrong.
    pub fn read(words: &[u32]) -> Option<Candidate>
        ensures { MatchOption result (readable words.now ≡ false) (λ c. (readable words.now ≡ true) × (c.order.count ≡ length words.now) × (c.order.rows ≡ rows_of words.now) × (c.opposites ≡ opposites_of words.now)) }
    {
        if !are_readable(words) {
            return None;
        }
        let order = Order {
            count: words.len() as u8,
            rows: read_rows(words),
        };
        let reverse = order.reversed();
        let meets = order.meets();
        let joins = reverse.meets();
        Some(Candidate {
            order,
            reverse,
            opposites: read_opposites(words),
            meets,
            joins,
        })
    }

    // The meet of two values.
    fn meet(&self, u: Place, v: Place) -> Place
        ensures { result.number ≡ meet_of self.now.order.count (under self.now.order.rows) u.number v.number }
    {
        Place::from(self.meets.at(u.number, v.number))
    }

    // The join of two values.
    fn join(&self, u: Place, v: Place) -> Place
        ensures { result.number ≡ join_of self.now.order.count (under self.now.order.rows) u.number v.number }
    {
        Place::from(self.joins.at(u.number, v.number))
    }

    // The opposite that is written for a value.
    pub fn opposite(&self, v: Place) -> Place
        ensures { result.number ≡ listed self.now.opposites v.number }
    {
        Place::from(self.opposites[v.index()])
    }

    // The value at or above every value.
    pub fn highest(&self) -> u8
        ensures { result ≡ highest_of self.now.order.count (under self.now.order.rows) }
    {
        self.order.highest()
    }

    // The value at or below every value.
    pub fn lowest(&self) -> u8
        ensures { result ≡ lowest_of self.now.order.count (under self.now.order.rows) }
    {
        self.reverse.highest()
    }

    // The greatest value that c is not at or below; a number past 15 is taken modulo 16.
    pub fn ceiling(&self, c: u8) -> u8
        ensures { result ≡ ceiling_of self.now.order.count (under self.now.order.rows) (c % 16) }
    {
        let above = self.reverse.rows[Place::from(c).index()];
        self.order.greatest(!above)
    }
}

// The laws at some values.
impl Candidate {
    // Whether at or below is reflexive, antisymmetric and transitive at u, v and w.
    fn is_ordered(&self, u: Place, v: Place, w: Place) -> bool
        ensures { result ≡ order_at (under self.now.order.rows) u.number v.number w.number }
    {
        let up = self.order.leq(u, v);
        let down = self.order.leq(v, u);
        let on = self.order.leq(v, w);
        let far = self.order.leq(u, w);
        self.order.leq(u, u) && (implies(up && down, u == v) && implies(up && on, far))
    }

    // Whether u and v have a meet and a join.
    fn is_bounded(&self, u: Place, v: Place) -> bool
        ensures { result ≡ bounded_at self.now.order.count (under self.now.order.rows) u.number v.number }
    {
        self.order.is_meet(u, v, self.meet(u, v)) && self.reverse.is_meet(u, v, self.join(u, v))
    }

    // Whether meet spreads over join at u, v and w.
    fn is_spread(&self, u: Place, v: Place, w: Place) -> bool
        ensures { result ≡ spread_at self.now.order.count (under self.now.order.rows) u.number v.number w.number }
    {
        self.meet(u, self.join(v, w)) == self.join(self.meet(u, v), self.meet(u, w))
    }

    // Whether v has an opposite that is undone by itself, and turns the order of v and w round.
    fn is_opposed(&self, v: Place, w: Place) -> bool
        ensures { result ≡ opposed_at self.now.order.count (under self.now.order.rows) (listed self.now.opposites) v.number w.number }
    {
        let o = self.opposite(v);
        let p = self.opposite(w);
        let back = self.opposite(o);
        (o.number < self.order.count && back == v)
            && implies(self.order.leq(v, w), self.order.leq(p, o))
    }

    // Whether c is not the join of a and b, or is one of them.
    fn is_no_join(&self, c: Place, a: Place, b: Place) -> bool
        ensures { result ≡ irreducible_at self.now.order.count (under self.now.order.rows) c.number a.number b.number }
    {
        implies(self.join(a, b) == c, a == c || b == c)
    }
}

// The laws at all values.
impl Candidate {
    // Whether c is join-irreducible: not lowest, and the join of no two others. A number past 15 is taken modulo 16.
    pub fn is_irreducible(&self, c: u8) -> bool
        ensures { result ≡ irreducible self.now.order.count (under self.now.order.rows) (c % 16) }
    {
        let c = Place::from(c);
        c.number != self.lowest() && self.order.every_pair(|a, b| self.is_no_join(c, a, b))
    }

    // Ok where every law holds, else the refusal of the first that does not.
    pub fn check_laws(&self) -> Result<(), Refusal>
        ensures { result ≡ law_verdict self.now.order.count self.now.order.rows self.now.opposites }
    {
        let order = &self.order;
        if !order.every_triple(|u, v, w| self.is_ordered(u, v, w)) {
            return Err(Refusal::Order);
        }
        if !order.every_pair(|u, v| self.is_bounded(u, v)) {
            return Err(Refusal::Lattice);
        }
        if !order.every_triple(|u, v, w| self.is_spread(u, v, w)) {
            return Err(Refusal::Distribution);
        }
        if !order.every_pair(|v, w| self.is_opposed(v, w)) {
            return Err(Refusal::Opposite);
        }
        Ok(())
    }
}

// Whether y holds where x does.
fn implies(x: bool, y: bool) -> bool
    ensures { result ≡ implies_test x y }
{
    !x || y
}
