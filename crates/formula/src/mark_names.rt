// The marks, by the list of their names.
ghost use Rattle.std.specs.Prelude.{◌≡◌, ℕ, ◌<◌, length, MatchResult};
ghost use Rattle.lines.specs.declared.Refusal.TheVariants.{Names, Text};
ghost use Rattle.tokens.specs.Names.{names_of, Listed, Proper};

use lines::Refusal;
use tokens::names::{mark_of, proper};

// A list of the marks' names, in the order of their numbers, which are bytes.
#[derive(Clone, Copy)]
pub(crate) struct Marks<'a> {
    pub(crate) list: &'a [u8],
    ghost few: { length (names_of list.now) < 256 },
}

impl<'a> Marks<'a> {
    // The marks with these names, if there are `count` and the list is proper.
    pub(crate) fn new(list: &'a [u8], count: u8) -> Result<Marks<'a>, Refusal>
        ensures { MatchResult result (λ m. (m.list.now ≡ list.now) × Proper list.now count) (λ e. (e ≡ Names) × (Proper list.now count → ⊥)) }
    {
        if proper(list, count) {
            Ok(Marks { list })
        } else {
            Err(Refusal::Names)
        }
    }

    // The number of the mark with this name.
    pub(crate) fn number(&self, name: &[u8]) -> Result<u8, Refusal>
        ensures { MatchResult result (λ m. Listed self.now.list.now name.now m) (λ e. (e ≡ Text) × ((m : ℕ) → Listed self.now.list.now name.now m → ⊥)) }
    {
        let mark = mark_of(self.list, name).ok_or(Refusal::Text)?;
        Ok(mark as u8)
    }
}
