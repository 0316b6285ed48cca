// The processor's state.

#![tactic(auto)]

pub mod state;
