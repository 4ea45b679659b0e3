ghost use Rattle.std.specs.Prelude.{◌≡◌, ◌<◌, [], ◌∷◌, ◌++◌, length, slice_set, MatchOption, OnOk, OnErr};
ghost use Rattle.std.specs.List.{HoldsAt};
ghost use Rattle.datagrams.specs.Flow.{dry};
ghost use Rattle.datagrams.specs.Sums.{no_sums};
ghost use Rattle.datagrams.specs.Rows.{IsPlaced, NoneHasKey, half_of, sums_of, with_half};

use crate::Memory;
use crate::conversation::Conversation;
use crate::half_stream::HalfStream;
use crate::running_sums::RunningSums;
use evring::Way;
use std::alloc::Global;
use std::collections::BTreeMap;
use std::marker::Model;
use streamkey::Key;

/// The conversations of a core, in the order in which they were opened, found by their keys, each of which stands once.
#[derive(Drop)]
pub struct Conversations {
    index: BTreeMap<Key, usize>,
    list: Vec<Conversation>,
}

impl Model for Conversations {
    ghost use Rattle.std.specs.Prelude.{List};
    ghost use Rattle.std.specs.BTreeMap.{get};
    ghost use Rattle.datagrams.specs.declared.conversation.Conversation.{Conversation};
    ghost use Rattle.datagrams.specs.Rows.{IsIndex};

    ghost Value = { List Conversation };

    ghost view = { λ c. c.list.items };

    ghost invariant = { λ c. IsIndex (get ⟦<Key as Ord>⟧.cmp c.index) c.list.items };
}

impl Conversations {
    pub fn new(alloc: Global) -> Conversations
        ensures { result ≡ [] }
    {
        Conversations {
            index: BTreeMap::new(alloc),
            list: Vec::new(alloc),
        }
    }

    /// The place of the conversation of that key.
    pub fn place(&self, key: &Key) -> Option<usize>
        ensures { MatchOption result (NoneHasKey key.now self.now) (λ place. IsPlaced key.now self.now place) }
    {
        self.index.get(key).copied()
    }

    /// Adds a conversation, whose key no other has. At want of memory nothing changes.
    pub fn open(&mut self, conversation: Conversation) -> Result<(), Memory>
        requires { NoneHasKey conversation.key self.old }
        ensures ok { OnOk result (self.new ≡ self.old ++ conversation ∷ []) }
        ensures err { OnErr result (self.new ≡ self.old) }
    {
        self.list.reserve(1)?;
        self.index.insert(conversation.key, self.list.len())?;
        self.list.push_reserved(conversation);
        Ok(())
    }

    pub fn len(&self) -> usize
        ensures { result ≡ length self.now }
    {
        self.list.len()
    }

    pub fn as_slice(&self) -> &[Conversation]
        ensures { result.now ≡ self.now }
    {
        &self.list
    }

    pub fn into_list(self) -> Vec<Conversation>
        ensures { result.items ≡ self }
    {
        self.list
    }

    /// One direction of the conversation at a place, with its numbers. What is left there is as before any datagram, until
    /// `put_half` puts it back.
    pub fn take_half(&mut self, place: usize, way: Way) -> (HalfStream, RunningSums)
        requires { place < length self.old }
        ensures half { HoldsAt (λ c. (result.0 ≡ half_of way c) × (result.1 ≡ sums_of way c)) self.old place }
        ensures rest { HoldsAt (λ c. self.new ≡ slice_set self.old place (with_half way dry no_sums c)) self.old place }
        ensures as_many { length self.new ≡ length self.old }
    {
        self.list[place].take_half(way)
    }

    /// Puts a direction and its numbers into the conversation at a place, in place of those that are there.
    pub fn put_half(&mut self, place: usize, way: Way, half: HalfStream, sums: RunningSums)
        requires { place < length self.old }
        ensures changed { HoldsAt (λ c. self.new ≡ slice_set self.old place (with_half way half sums c)) self.old place }
        ensures as_many { length self.new ≡ length self.old }
    {
        self.list[place].put_half(way, half, sums);
    }
}
