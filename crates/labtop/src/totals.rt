// The sums over all directions.
ghost use Rattle.std.specs.Prelude.{◌≡◌, ◌+◌, ◌<◌, ◌^◌, false};
ghost use Rattle.datagrams.specs.Sound.{came_bytes, IsEven};
ghost use Rattle.datagrams.specs.Rows.{row_of};
ghost use Rattle.datagrams.specs.Sums.{over_both};
ghost use Rattle.labtop.specs.ReportLines.{over_all};
ghost use Rattle.streamdefs.specs.Lists.{Each, total};

use datagrams::Conversation;

/// The bytes of a run that came, were delivered, and were shed.
#[derive(Clone, Copy, Debug, PartialEq, Eq)]
pub(crate) struct Totals {
    pub payload: u64,
    pub delivered: u64,
    pub shed: u64,
}

/// Counts a conversation's directions.
fn count(totals: &mut Totals, conversation: &Conversation)
    requires payload { totals.old.payload + over_both (λ s. s.payload) (row_of false conversation.now) < 2 ^ 64 }
    requires delivered { totals.old.delivered + over_both (λ s. s.delivered) (row_of false conversation.now) < 2 ^ 64 }
    requires shed { totals.old.shed + over_both (λ s. s.shed) (row_of false conversation.now) < 2 ^ 64 }
    ensures payload { totals.new.payload ≡ totals.old.payload + over_both (λ s. s.payload) (row_of false conversation.now) }
    ensures delivered { totals.new.delivered ≡ totals.old.delivered + over_both (λ s. s.delivered) (row_of false conversation.now) }
    ensures shed { totals.new.shed ≡ totals.old.shed + over_both (λ s. s.shed) (row_of false conversation.now) }
{
    let fore = &conversation.fore_sums;
    let back = &conversation.back_sums;
    totals.payload += fore.payload + back.payload;
    totals.delivered += fore.delivered + back.delivered;
    totals.shed += fore.shed + back.shed;
}

/// The sums over all conversations.
pub(crate) fn sum_up(table: &[Conversation]) -> Totals
    requires even { Each IsEven table.now }
    requires came { total came_bytes table.now < 2 ^ 64 }
    ensures payload { result.payload ≡ over_all (λ s. s.payload) table.now }
    ensures delivered { result.delivered ≡ over_all (λ s. s.delivered) table.now }
    ensures shed { result.shed ≡ over_all (λ s. s.shed) table.now }
{
    let mut totals = Totals {
        payload: 0,
        delivered: 0,
        shed: 0,
    };
    for conversation in table {
        count(&mut totals, conversation);
    }
    totals
}
