ghost use Rattle.std.specs.Prelude.{◌≡◌};
ghost use Rattle.orders.specs.Orders.{under, listed};
ghost use Rattle.table.specs.Cuts.{irreducibles_of, cut_from, cuts_of as listed_cuts};

use arrayvec::ArrayVec;
use orders::candidate::Candidate;
use orders::place::Place;

// A cut: its value, its ceiling, and the number of its partner.
#[derive(Clone, Copy, Default)]
pub struct Cut {
    pub value: u8,
    pub ceiling: u8,
    pub partner: u8,
}

// The join-irreducible values in the order of their numbers.
fn irreducibles(candidate: &Candidate) -> ArrayVec<u8, 16>
    ensures { result.items ≡ irreducibles_of candidate.now.order.count (under candidate.now.order.rows) }
{
    let mut values = ArrayVec::new();
    for v in 0..candidate.order.count {
        if candidate.is_irreducible(v) {
            values.push(v);
        }
    }
    values
}

// The cut with a value, which is one of these. Its partner is the one with the opposite of its ceiling.
fn cut_with(candidate: &Candidate, values: &ArrayVec<u8, 16>, value: u8) -> Cut
    ensures { result ≡ cut_from candidate.now.order.count (under candidate.now.order.rows) (listed candidate.now.opposites) values.now.items value }
{
    let ceiling = candidate.ceiling(value);
    let facing = candidate.opposite(Place::from(ceiling)).number;
    let partner = values.iter().position(|v| *v == facing).unwrap_or(0);
    Cut {
        value,
        ceiling,
        partner: partner as u8,
    }
}

// The cuts in the order of their values.
pub fn cuts_of(candidate: &Candidate) -> ArrayVec<Cut, 16>
    ensures { result.items ≡ listed_cuts candidate.now.order.count (under candidate.now.order.rows) (listed candidate.now.opposites) }
{
    let values = irreducibles(candidate);
    let mut cuts = ArrayVec::new();
    for value in values.iter() {
        cuts.push(cut_with(candidate, &values, *value));
    }
    cuts
}
