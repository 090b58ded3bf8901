ghost use Rattle.std.specs.Prelude.{◌≡◌, ◌≤◌, true, false, Ok, Err};
ghost use Rattle.scale.specs.Refusals.{refusal_number};
ghost use Rattle.chains.specs.Ranges.{within};

use scale::Refusal;

// A number in the range of a maker's argument.
#[derive(Clone, Copy)]
pub(crate) struct Within<const LEAST: u8, const MOST: u8> {
    pub(crate) number: u8,
    ghost least: { LEAST ≤ number },
    ghost most: { number ≤ MOST },
}

impl<const LEAST: u8, const MOST: u8> Within<LEAST, MOST> {
    // The number, if it is in the range.
    pub(crate) fn new(number: u8) -> Result<Self, Refusal>
        ensures { elim result [ Ok w ↦ (within LEAST MOST number ≡ true) × (w.number ≡ number) | Err e ↦ (within LEAST MOST number ≡ false) × (refusal_number e ≡ 10) ] }
    {
        if (LEAST..=MOST).contains(&number) {
            Ok(Within { number })
        } else {
            Err(Refusal::Logic)
        }
    }
}
