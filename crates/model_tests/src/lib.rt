// Tests of the library's crates, in a crate of their own so that none is proved a second time with its tests.
#![tactic(auto)]

#[cfg(test)]
mod cards;
#[cfg(test)]
mod commands;
#[cfg(test)]
mod common;
#[cfg(test)]
mod edge_card;
#[cfg(test)]
mod edges;
#[cfg(test)]
mod fault_lines;
#[cfg(test)]
mod fault_reports;
#[cfg(test)]
mod faults;
#[cfg(test)]
mod images;
#[cfg(test)]
mod instruction_set;
#[cfg(test)]
mod layers;
#[cfg(test)]
mod opcodes;
