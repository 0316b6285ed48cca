// Halfwords: single bits, and the program status word.

#![tactic(auto)]

pub mod bits;
pub mod psw;
