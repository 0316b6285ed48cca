// A session at the console: the operator's script, performed line by line.

#![tactic(auto)]

mod calls;
mod draft;
pub mod failure;
pub mod session;
mod store;
