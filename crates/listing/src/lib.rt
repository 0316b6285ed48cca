// The text of each line that the program prints.

#![tactic(auto)]

pub mod answer;
pub mod line;
pub mod number;
pub mod unread;
