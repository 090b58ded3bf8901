// What the row of a line is made of, and where rows lie in a stretch.
#![tactic(auto)]

ghost use Rattle.std.specs.Prelude.{◌≡◌, ℕ, ◌+◌, ◌*◌, ◌^◌, ◌<◌, Bool, true, false};
ghost use Rattle.std.specs.Option.{SomeIff};
ghost use Rattle.steps.specs.Steps.{ends_by, side_by, step_by, laid};

use ctl::Paths;

// A row that a step reads: F or T at every stage, the row that begins at a place of the stretch, or the opposite of that row.
#[derive(Clone, Copy)]
pub enum Side {
    Bottom,
    Top,
    At(usize),
    Not(usize),
}

// One side until another, along one path or along all.
#[derive(Clone, Copy)]
pub struct Until {
    pub paths: Paths,
    pub before: Side,
    pub end: Side,
}

// What the row of a line is made of: a mark, a side as it is, two sides, EX or AX of a row, an until, or the opposite of an until.
#[derive(Clone, Copy)]
pub enum Step {
    Mark(usize),
    Copied(Side),
    And(Side, Side),
    Or(Side, Side),
    Ex(usize),
    Ax(usize),
    Until(Until),
    Dual(Until),
}

// How many arrows and marks there are for n stages with a marks each, if the number fits.
fn entries_of(n: usize, a: usize) -> Option<usize>
    ensures { SomeIff result (n * (n + a) < 2 ^ 64) (n * (n + a)) }
{
    n.checked_mul(n.checked_add(a)?)
}

// Whether a row of n entries ends at `end` or before.
fn row_ends_by(n: usize, end: usize, place: usize) -> bool
    ensures { result ≡ ends_by n end place }
{
    n <= end && place <= end - n
}

impl Side {
    // Whether the row that the side names ends at `end` or before.
    fn ends_by(self, n: usize, end: usize) -> bool
        ensures { result ≡ side_by n end self }
    {
        match self {
            Side::Bottom | Side::Top => true,
            Side::At(place) | Side::Not(place) => row_ends_by(n, end, place),
        }
    }
}

impl Step {
    // Whether all rows that the step names end at `end` or before, and its mark is one of a.
    fn ends_by(self, n: usize, a: usize, end: usize) -> bool
        ensures { result ≡ step_by n a end self }
    {
        match self {
            Step::Mark(m) => m < a,
            Step::Copied(f) => f.ends_by(n, end),
            Step::And(f, g) | Step::Or(f, g) => f.ends_by(n, end) && g.ends_by(n, end),
            Step::Ex(place) | Step::Ax(place) => row_ends_by(n, end, place),
            Step::Until(u) | Step::Dual(u) => u.before.ends_by(n, end) && u.end.ends_by(n, end),
        }
    }

    // Whether a stretch of `len` values has all in order for the step: the arrows and marks of n stages and the rows that the step names,
    // then the row at `to`, then the two work rows at `work`.
    pub fn is_laid(self, n: usize, a: usize, to: usize, work: usize, len: usize) -> bool
        ensures { result ≡ laid n a self to work len }
    {
        let Some(entries) = entries_of(n, a) else {
            return false;
        };
        entries <= to
            && self.ends_by(n, a, to)
            && row_ends_by(n, work, to)
            && n <= len
            && row_ends_by(n, len - n, work)
    }
}
