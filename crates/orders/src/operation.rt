ghost use Rattle.std.specs.Prelude.{◌≡◌, ◌+◌, ◌*◌, ◌%◌, slice_index};

use crate::place::Place;

// An operation on two values: 16 rows of 16 cells, the answer at u and v in cell 16 u + v.
#[derive(Drop)]
pub struct Operation {
    pub cells: [u8; 256],
}

impl Operation {
    // The answer at u and v; a number past 15 is taken modulo 16.
    pub fn at(&self, u: u8, v: u8) -> u8
        ensures { result ≡ slice_index self.now.cells ((u % 16) * 16 + v % 16) }
    {
        self.cells[Place::from(u).index() * 16 + Place::from(v).index()]
    }
}
