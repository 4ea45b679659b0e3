//! Tests of the layers below the commands: what no clause says, as that a call succeeds with ample memory.
//! Promises nothing to a layer above.
//! Stands on scapconf (settings and statuses) and scap_world (files), and on the crates whose values these take.
#![tactic(auto)]

#[cfg(test)]
mod setting_fault_cases;
#[cfg(test)]
mod setting_faults;
#[cfg(test)]
mod settings;
#[cfg(test)]
mod settings_cases;
#[cfg(test)]
mod shelves;
#[cfg(test)]
mod statuses;
