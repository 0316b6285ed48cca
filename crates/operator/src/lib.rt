// The operator's calls.

#![tactic(auto)]

mod reach;
pub mod stopped;
