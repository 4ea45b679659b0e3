//! Tests of a worker: what no clause says, as the worked rows, a sink that fails in mid-stream, and want of memory.
//! Promises nothing to a layer above.
//! Stands on workrun and on the crates whose values it takes.
#![tactic(auto)]

#[cfg(test)]
mod serving;
