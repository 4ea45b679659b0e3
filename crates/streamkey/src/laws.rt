//! What the definitions of an order and of a key mean, each as the contract of a function with an empty body.
ghost use Rattle.std.specs.Prelude.{◌≡◌, ◌≢◌, ◌%◌, true};
ghost use Rattle.std.specs.Ordering.{ordering_reverse};
ghost use Rattle.streamkey.specs.Order.{addr_order, end_order, key_order, proto_order};
ghost use Rattle.streamkey.specs.Address.{HasItsBytes};
ghost use Rattle.streamkey.specs.Hash.{core_number, hash_input, toeplitz_of, IsSymmetric};
ghost use Rattle.streamkey.specs.Key.{key_of, opposite, source_of, target_of};
ghost use Rattle.streamkey.specs.Packet.{IsWay};
ghost use Rattle.streamkey.specs.declared.toward.Toward.TheVariants.{Up};
ghost use Rattle.std.specs.declared.cmp.Ordering.TheVariants.{Equal};

use crate::{Addr, End, Key, Proto, Toward};

/// An address of version 4 has 4 bytes, one of version 6 has 16.
pub fn addresses_have_their_bytes(a: Addr)
    ensures { HasItsBytes a }
{}

/// Addresses compare by the order that is stated for them.
pub fn addr_compares(a: Addr, b: Addr)
    ensures { ⟦<Addr as Ord>⟧.cmp a b ≡ addr_order a b }
{}

/// Protocols compare by the order that is stated for them.
pub fn proto_compares(a: Proto, b: Proto)
    ensures { ⟦<Proto as Ord>⟧.cmp a b ≡ proto_order a b }
{}

/// Ends compare by the order that is stated for them.
pub fn end_compares(a: End, b: End)
    ensures { ⟦<End as Ord>⟧.cmp a b ≡ end_order a b }
{}

/// Keys compare by the order that is stated for them.
pub fn key_compares(a: Key, b: Key)
    ensures { ⟦<Key as Ord>⟧.cmp a b ≡ key_order a b }
{}

/// Ways compare as equal where they are the same.
pub fn ways_compare(a: Toward, b: Toward)
    ensures { ⟦<Toward as PartialEq>⟧.eq a b ≡ true → a ≡ b }
{}

/// Two ends stand the other way round where they are exchanged, and only an end itself is equal to it.
pub fn ends_are_ordered(a: End, b: End)
    ensures exchanged { end_order b a ≡ ordering_reverse (end_order a b) }
    ensures equal { end_order a b ≡ Equal → a ≡ b }
{}

/// The source and the target of a key and a way give this key and this way; where both ends are the same the way is Up.
pub fn readings_give_the_key(key: &Key, toward: Toward)
    ensures apart { key.now.low ≢ key.now.high → key_of key.now.proto (source_of key.now toward) (target_of key.now toward) ≡ (key.now, toward) }
    ensures same { key.now.low ≡ key.now.high → key_of key.now.proto (source_of key.now toward) (target_of key.now toward) ≡ (key.now, Up) }
{
    let _ = &key.low;
}

/// The key and the way of two ends are those of a packet between them.
pub fn two_ends_give_a_way(proto: Proto, source: End, target: End)
    ensures { IsWay (key_of proto source target).0 (key_of proto source target).1 }
{}

/// Packets of both ways have one key, and their ways are opposite where the ends differ.
pub fn both_ways_give_one_key(proto: Proto, source: End, target: End)
    ensures key { (key_of proto target source).0 ≡ (key_of proto source target).0 }
    ensures way { source ≢ target → (key_of proto target source).1 ≡ opposite (key_of proto source target).1 }
{}

/// The hash of two ends and their ports is the same whichever end comes first, so both ways of a conversation have one
/// core.
pub fn both_ways(a: End, b: End)
    ensures { IsSymmetric a b }
{}

/// The core of a packet's key is told by its source and its target, in this order, whatever its way.
pub fn a_packet_tells_its_core(proto: Proto, source: End, target: End, cores: u16)
    ensures { core_number (key_of proto source target).0 cores ≡ toeplitz_of (hash_input source target) % cores }
{}
