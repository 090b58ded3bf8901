// What the calls of a plan work on: the memory of the largest sheet, and what the plan has printed so far.
ghost use Rattle.std.specs.Prelude.{◌≡◌, [], length, IfOk};
ghost use Rattle.plan.specs.Calls.{lent_values};

use report::Output;
use std::alloc::{AllocError, Global};

// The values that the largest sheet is lent: 64 × (64 + 16 + 66).
const MOST_VALUES: usize = 9344;

#[derive(Drop)]
pub(crate) struct Desk<V> {
    pub(crate) stretch: Vec<V>,
    pub(crate) lines: [u32; 64],
    pub(crate) outputs: Vec<Output>,
    ghost long: { length stretch.items ≡ lent_values },
}

impl<V: Copy> Desk<V> {
    // Memory whose values are all v, and nothing printed.
    pub(crate) fn new(heap: Global, v: V) -> Result<Desk<V>, AllocError>
        ensures { IfOk result (λ d. d.outputs.items ≡ []) }
    {
        Ok(Desk {
            stretch: vec![in heap; v; MOST_VALUES]?,
            lines: [0; 64],
            outputs: Vec::new(heap),
        })
    }
}
