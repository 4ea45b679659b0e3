ghost use Rattle.std.specs.Prelude.{◌≡◌, ◌+◌, ◌*◌, ◌≤◌, ◌^◌, ◌<◌, IsTrue, ◌↔◌};
ghost use Rattle.pcapgen.specs.Flows.{begin_of, is_tcp, reached};

use crate::Drawn;

/// How many bytes TCP sends again.
const AGAIN: u32 = 50;

/// Even flows are of TCP, odd ones of UDP.
pub(crate) fn is_tcp(flow: u32) -> bool
    ensures { result ≡ is_tcp flow }
{
    flow % 2 == 0
}

/// Where the payload begins in its direction, of which so much was sent.
#[tactic(auto, unfolding(crate::specs::Flows::begin_of))]
pub(crate) fn begin_of(drawn: Drawn, sent: u32) -> u32
    requires { sent + drawn.len < 2 ^ 32 }
    ensures begin { result ≡ begin_of drawn sent }
    ensures bound { result ≤ sent + drawn.len }
{
    let tcp = is_tcp(drawn.flow);
    if tcp && drawn.step == 0 {
        sent - sent.min(AGAIN)
    } else if tcp && drawn.step == 1 {
        sent + drawn.len
    } else {
        sent
    }
}

/// How far the direction is sent behind it.
#[tactic(auto, unfolding(crate::specs::Flows::reached))]
pub(crate) fn reached(drawn: Drawn, sent: u32, begin: u32) -> u32
    requires begin { begin ≡ begin_of drawn sent }
    requires room { begin + drawn.len < 2 ^ 32 }
    requires near { begin ≤ sent + drawn.len }
    ensures reached { result ≡ reached drawn sent }
    ensures bound { result ≤ sent + 2 * drawn.len }
{
    sent.max(begin + drawn.len)
}
