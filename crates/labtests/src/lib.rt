//! Tests of commands over files in memory: what no clause says, as that a run succeeds with ample memory.
//! Promises nothing to a layer above.
//! Stands on labtop, labcases (captures and files as data), scapconf (statuses, settings), pcapfile (the faults of a head), prio_budget
//! (marks) and scap_world (the files).
#![tactic(auto)]

#[cfg(test)]
mod budgets;
#[cfg(test)]
mod deliveries;
#[cfg(test)]
mod faults;
#[cfg(test)]
mod large;
#[cfg(test)]
mod makes;
#[cfg(test)]
mod matches;
#[cfg(test)]
mod refusals;
#[cfg(test)]
mod runs;
#[cfg(test)]
mod settings;
#[cfg(test)]
mod skipped;
