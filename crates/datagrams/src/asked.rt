ghost use Rattle.std.specs.Prelude.{◌≡◌, ◌<◌, ◌≤◌, ◌^◌, IfSome, IfNone};
ghost use Rattle.datagrams.specs.Entered.{budget_behind, look_for, IsChargeOf};

use histbook::LookEntry;
use prio_budget::{Answered, Look, PlainBudget, PlainCharge};

/// The answer to an ask: its look, and the charge where it was granted.
#[derive(Drop)]
pub(crate) struct Asked {
    pub look: LookEntry,
    pub charge: Option<PlainCharge>,
}

fn look_entry(asked: u32, granted: bool, look: Look) -> LookEntry
    ensures { result ≡ record { asked = asked; granted = granted; look = look } }
{
    LookEntry {
        asked,
        granted,
        look,
    }
}

/// Asks the budget for bytes, up to a mark. None where its stamps are spent.
pub(crate) fn ask(budget: &mut PlainBudget, asked: u32, mark: u32) -> Option<Asked>
    requires asked { 1 ≤ asked }
    requires mark { mark ≤ budget.old.limit }
    ensures look { IfSome result (λ a. a.look ≡ look_for mark budget.old asked) }
    ensures charge { IfSome result (λ a. IsChargeOf a.look a.charge) }
    ensures budget { IfSome result (λ a. budget.new ≡ budget_behind a.look budget.old) }
    ensures stamp { IfSome result (λ _. budget.old.stamp < 2 ^ 31) }
    ensures none { IfNone result (budget.new ≡ budget.old) }
{
    match budget.reserve(asked, mark) {
        Answered::Granted { charge, look } => Some(Asked {
            look: look_entry(asked, true, look),
            charge: Some(charge),
        }),
        Answered::Past { look } => Some(Asked {
            look: look_entry(asked, false, look),
            charge: None,
        }),
        Answered::Spent { .. } | Answered::Moved { .. } => None,
    }
}
