use crate::rule::Rule;

/// What an entry passes of what is held: nothing, or parts from a position on by a rule.
#[derive(Clone, Copy)]
pub(crate) enum Advance {
    Stay,
    From { at: u64, rule: Rule },
}
