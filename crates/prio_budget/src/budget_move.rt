use crate::{Free, Look};

/// A change of a budget: bytes that were granted, with what their ask found, or a release.
#[derive(Drop)]
pub enum BudgetMove {
    Grant(Look, u32),
    Release(Free),
}
