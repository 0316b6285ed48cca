// An exhibit's own storage and hosts: examples to begin from.

#![tactic(auto)]

pub mod counted;
pub mod lent;
pub mod panel;
