//! Tests of one core's table: what no clause says, as that each call succeeds with ample memory, and worked stories.
//! Promises nothing to a layer above.
//! Stands on coretable, a plain budget, settings that are read from a text, and the crates whose values these take.
#![tactic(auto)]

#[cfg(test)]
mod book;
#[cfg(test)]
mod drains;
#[cfg(test)]
mod events;
#[cfg(test)]
mod machine;
#[cfg(test)]
mod packets;
#[cfg(test)]
mod segments;
#[cfg(test)]
mod several;
#[cfg(test)]
mod single;
#[cfg(test)]
mod steps;
#[cfg(test)]
mod worker;
