// Relations "at or below" on 2 to 16 values, read from words: their meets and joins, and the laws that make one a logic.
#![tactic(auto)]

pub mod candidate;
pub mod operation;
pub mod order;
pub mod place;
mod words;
