// The words of a file: what each says by its own bits.
#![tactic(auto)]

pub mod kind;
