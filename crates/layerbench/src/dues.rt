use crate::Fault;
use deadlines::Due;
use std::alloc::Global;

/// A moment that tells nothing of where its id stands among others.
fn scattered(id: u32) -> u64 {
    u64::from(id.wrapping_mul(2_654_435_761))
}

/// Sets a moment for so many ids, then another one for each, and takes them out as they fall due: how many came in the order
/// of their moments.
pub fn in_order(alloc: Global, ids: u32) -> Result<u64, Fault> {
    let mut due = Due::new(alloc);
    for id in 0..ids {
        due.set(id, scattered(id))?;
    }
    for id in 0..ids {
        due.set(id, scattered(id.wrapping_add(ids)))?;
    }
    let mut last: u64 = 0;
    let mut right: u64 = 0;
    for _ in 0..ids {
        let Some((moment, id)) = due.first_due(u64::MAX) else {
            break;
        };
        if last <= moment {
            right = right.saturating_add(1);
        }
        last = moment;
        due.remove(id);
    }
    Ok(right)
}
