// The operations, the refusals of the operator's calls, and the code sheet that fills a processor's table.

#![tactic(auto)]

pub mod operation;
pub mod refusal;
pub mod table;
