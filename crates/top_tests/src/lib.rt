//! Tests that cross crates: whole runs of the top calls over memory, and calls of the crates below
//! them by themselves on files that were read. They stand in a crate of their own, since a crate
//! with tests is proved with and without them.
#![tactic(auto)]

#[cfg(test)]
mod answers;
#[cfg(test)]
mod files;
#[cfg(test)]
mod group_counts;
#[cfg(test)]
mod laws;
#[cfg(test)]
mod memory_runs;
#[cfg(test)]
mod pairing_counts;
#[cfg(test)]
mod states;
#[cfg(test)]
mod verdicts;
#[cfg(test)]
mod world_cups;
