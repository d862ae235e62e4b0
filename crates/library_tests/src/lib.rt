//! Tests of what no clause says, for all libraries: calls once on their happy path, tables of the standards, and what the host's files
//! do. What stands on more than these libraries is run by the programs of cases.
#![tactic(auto)]

#[cfg(test)]
mod base_set;
#[cfg(test)]
mod bits;
#[cfg(test)]
mod certifying;
#[cfg(test)]
mod cores;
#[cfg(test)]
mod files_and_outputs;
#[cfg(test)]
mod graphs;
#[cfg(test)]
mod machines;
#[cfg(test)]
mod names;
#[cfg(test)]
mod problems;
#[cfg(test)]
mod result_types;
#[cfg(test)]
mod sheets;
#[cfg(test)]
mod simulation;
#[cfg(test)]
mod solving;
#[cfg(test)]
mod statements;
#[cfg(test)]
mod trees;
#[cfg(test)]
mod validity;
