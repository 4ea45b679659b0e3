use crate::ChunkView;
use evring::{Advice, Reason};
use streamkey::{Key, Toward};

/// What is to become of streams, asked at each event of a conversation. The advice hangs on what is shown and on the
/// handler's own value alone, so each implementation states it as a function of these.
pub trait Handler: Drop {
    ghost use Rattle.std.specs.Prelude.{◌≡◌, ℕ};
    ghost use Rattle.evring.specs.declared.advice.Advice.{Advice};
    ghost use Rattle.streamdefs.specs.Convo.{Seen};
    ghost use Rattle.streamdefs.specs.Convo.Seen.{Created, Over};
    ghost use Rattle.handler.specs.Seen.{seen_in_view};

    /// What it advises, by the number of the conversation and what is seen of the event.
    ghost advice: { Self → ℕ → Seen → Advice };

    /// A conversation opened with a packet of this key that goes this way.
    fn created(&self, conv: u32, key: &Key, toward: Toward) -> Advice
        ensures { result ≡ advice self.now conv (Created key.now toward) };

    /// Bytes of one direction are there.
    fn chunk(&self, view: &ChunkView) -> Advice
        ensures { result ≡ advice self.now view.now.conv (seen_in_view view.now) };

    /// A conversation ended. Advice changes nothing any more.
    fn ended(&self, conv: u32, reason: Reason) -> Advice
        ensures { result ≡ advice self.now conv (Over reason) };
}
