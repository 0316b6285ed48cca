// Examples, executed: what the rules give for them is worked out by hand.

#![tactic(auto)]

#[cfg(test)]
mod operators;
#[cfg(test)]
mod refusals;
#[cfg(test)]
mod scripts;
#[cfg(test)]
mod sheets;
#[cfg(test)]
mod storages;
