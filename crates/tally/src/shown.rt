// What looks show, compared with what was used.
ghost use Rattle.std.specs.Prelude.{◌≡◌};
ghost use Rattle.tally.specs.Walk.{shown_by, earlier_of, IsLeastShown};

use crate::Mismatch;
use histbook::LookEntry;

/// What a look shows, where these numbers of bytes were in use before the stamps from 0 on.
fn shown_by(before: &[u32], count: u64, look: &LookEntry) -> Option<Mismatch>
    ensures { result ≡ shown_by before.now count look.now }
{
    let stamp = look.look.stamp;
    let found = u64::from(look.look.found);
    match before.get(stamp as usize) {
        Some(used) if *used != look.look.found => Some(Mismatch {
            stamp,
            kept: found,
            summed: u64::from(*used),
        }),
        None if u64::from(stamp) > count => Some(Mismatch {
            stamp,
            kept: u64::from(stamp),
            summed: count,
        }),
        _ => None,
    }
}

/// The one at the lower stamp, the first of equal ones.
pub(crate) fn earlier_of(first: Option<Mismatch>, next: Option<Mismatch>) -> Option<Mismatch>
    ensures { result ≡ earlier_of first next }
{
    match (first, next) {
        (Some(m), Some(n)) if n.stamp < m.stamp => next,
        (None, _) => next,
        _ => first,
    }
}

/// What looks show first, at the least stamp.
pub(crate) fn least_shown(before: &[u32], count: u64, looks: &[LookEntry]) -> Option<Mismatch>
    ensures { IsLeastShown (shown_by before.now count) looks.now result }
{
    let mut first = None;
    for look in looks {
        first = earlier_of(first, shown_by(before, count, look));
    }
    first
}
