// The four draws of a record.
ghost use Rattle.std.specs.Prelude.{◌≡◌, ◌+◌, ◌*◌, ◌<◌, ◌≤◌};
ghost use Rattle.pcapgen.specs.Draws.{below, drawn_from, next};

/// What is drawn for one record.
#[derive(Clone, Copy, Debug, PartialEq, Eq)]
pub struct Drawn {
    /// Its flow, below 64.
    pub flow: u32,
    /// 0 from client to server, 1 back.
    pub way: u32,
    /// The bytes of its payload, 1 to 200.
    pub len: u32,
    /// Below 8: 0 sends bytes again, 1 leaves some out, where the flow is of TCP.
    pub step: u32,
}

/// Draws a number below `k`: the high half of the next state.
#[tactic(auto, unfolding(crate::specs::Draws::next, crate::specs::Draws::below))]
fn draw(state: &mut u64, k: u32) -> u32
    requires { 1 ≤ k }
    ensures state { state.new ≡ next state.old }
    ensures drawn { result ≡ below k (next state.old) }
    ensures bound { result < k }
{
    *state = state
        .wrapping_mul(6364136223846793005)
        .wrapping_add(1442695040888963407);
    ((*state >> 32) as u32) % k
}

/// Draws what a record is.
pub(crate) fn draw_record(state: &mut u64) -> Drawn
    ensures state { state.new ≡ next (next (next (next state.old))) }
    ensures drawn { result ≡ drawn_from state.old }
    ensures flow { result.flow < 64 }
    ensures way { result.way < 2 }
    ensures len { result.len ≤ 200 }
{
    let flow = draw(state, 64);
    let way = draw(state, 2);
    let len = draw(state, 200) + 1;
    let step = draw(state, 8);
    Drawn {
        flow,
        way,
        len,
        step,
    }
}
