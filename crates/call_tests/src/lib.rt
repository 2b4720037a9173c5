//! Tests that run the sources, and load, check and look-ups in memories of a caller's own.
// A crate with tests is proved twice, so these stand apart from the worked examples, whose proof is long.
#![tactic(auto)]

#[cfg(test)]
mod sources;
#[cfg(test)]
mod tables;
