// What the two states of a sheet allow: a settled sheet is read as often as wanted until it is reopened, and a draft takes
// an arrow as often as wanted until it is settled.
use crate::desk::Desk;
use crate::entry::Entry;
use scale::Logic;
use sheet::{Draft, Refusal, Settled};

// Reads a line at two stages, and reopens the sheet.
pub fn twice_read<L: Logic>(
    settled: Settled,
    desk: &Desk<'_, L>,
    line: u8,
) -> (Draft, Result<L::Value, Refusal>, Result<L::Value, Refusal>) {
    let first = desk.read(&settled, line, 0);
    let second = desk.read(&settled, line, 1);
    let draft = desk.reopen(settled);
    (draft, first, second)
}

// Enters the arrow from stage 0 to stage 3 twice, the later value standing, and settles the draft.
pub fn entered_twice<L: Logic>(
    mut draft: Draft,
    desk: &mut Desk<'_, L>,
    earlier: u32,
    later: u32,
) -> Result<(Settled, u8), Refusal> {
    desk.enter(&mut draft, Entry::Arrow(0, 3, earlier))?;
    desk.enter(&mut draft, Entry::Arrow(0, 3, later))?;
    desk.settle(draft).map_err(|(_, why)| why)
}
