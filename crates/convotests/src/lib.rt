//! Tests of one conversation: what no clause says, as that each call succeeds with ample memory, and worked stories.
//! Promises nothing to a layer above.
//! Stands on convo, a plain budget, and the crates whose values these take.
#![tactic(auto)]

#[cfg(test)]
mod copies;
#[cfg(test)]
mod lines;
#[cfg(test)]
mod player;
#[cfg(test)]
mod stories;
