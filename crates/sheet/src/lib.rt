// A sheet of stages over any logic: a draft takes entries, a settled sheet gives readings. The memory is lent at each call.
#![tactic(auto)]

mod draft;
mod settled;
mod settling;
mod size;
mod state;

pub use state::{Draft, Refusal, Settled};
