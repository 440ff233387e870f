// Tests of the processor by clock and of its service key, in a crate of their own so that neither is proved a second time
// with its tests.
#![tactic(auto)]

#[cfg(test)]
mod common;
#[cfg(test)]
mod counts;
#[cfg(test)]
mod faults;
#[cfg(test)]
mod keys;
#[cfg(test)]
mod lent;
#[cfg(test)]
mod other_keys;
#[cfg(test)]
mod power_ups;
#[cfg(test)]
mod programs;
#[cfg(test)]
mod refusals;
#[cfg(test)]
mod resets;
#[cfg(test)]
mod rows;
#[cfg(test)]
mod script;
#[cfg(test)]
mod shown;
#[cfg(test)]
mod transfers;
