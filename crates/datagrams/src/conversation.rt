ghost use Rattle.std.specs.Prelude.{◌≡◌};

use crate::half_stream::HalfStream;
use crate::running_sums::RunningSums;
use evring::Way;
use std::mem;
use streamkey::{Key, Toward};

/// What is kept of a conversation: the number of the packet that opened it and its way, and both directions with their
/// numbers.
#[derive(Drop)]
pub struct Conversation {
    pub number: u32,
    pub key: Key,
    pub toward: Toward,
    pub fore: HalfStream,
    pub back: HalfStream,
    pub fore_sums: RunningSums,
    pub back_sums: RunningSums,
}

impl Conversation {
    ghost use Rattle.datagrams.specs.Flow.{dry};
    ghost use Rattle.datagrams.specs.Sums.{no_sums};
    ghost use Rattle.datagrams.specs.Rows.{half_of, sums_of, unbegun, with_half};

    /// Before its first datagram.
    pub fn new(number: u32, key: Key, toward: Toward) -> Conversation
        ensures { result ≡ unbegun number key toward }
    {
        Conversation {
            number,
            key,
            toward,
            fore: HalfStream::new(),
            back: HalfStream::new(),
            fore_sums: RunningSums::new(),
            back_sums: RunningSums::new(),
        }
    }

    /// One direction and its numbers, which are as before any datagram from then on.
    pub fn take_half(&mut self, way: Way) -> (HalfStream, RunningSums)
        ensures half { result.0 ≡ half_of way self.old }
        ensures sums { result.1 ≡ sums_of way self.old }
        ensures rest { self.new ≡ with_half way dry no_sums self.old }
    {
        match way {
            Way::Fore => (
                mem::replace(&mut self.fore, HalfStream::new()),
                mem::replace(&mut self.fore_sums, RunningSums::new()),
            ),
            Way::Back => (
                mem::replace(&mut self.back, HalfStream::new()),
                mem::replace(&mut self.back_sums, RunningSums::new()),
            ),
        }
    }

    /// Puts a direction and its numbers in the place of those that are there.
    pub fn put_half(&mut self, way: Way, half: HalfStream, sums: RunningSums)
        ensures { self.new ≡ with_half way half sums self.old }
    {
        match way {
            Way::Fore => {
                self.fore = half;
                self.fore_sums = sums;
            }
            Way::Back => {
                self.back = half;
                self.back_sums = sums;
            }
        }
    }
}
