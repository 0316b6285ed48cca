// Examples of hosts, executed: what the rules give for them is worked out by hand.

#![tactic(auto)]

#[cfg(test)]
mod hosts;
