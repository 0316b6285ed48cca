// The operator's script: what one line of it says.

#![tactic(auto)]

pub mod command;
mod name;
mod number;
mod parse;
pub mod read;
pub mod unread;
mod verb;
mod words;
