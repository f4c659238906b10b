//! Captures that wait for settlement in working memory, each kept at its length.
ghost use Rattle.std.specs.Prelude.{◌≡◌, ◌<◌, ◌≤◌, ◌++◌, ◌∷◌, [], length, slice_get, Some, OnOk};
ghost use Rattle.capture_store.specs.Waits.{HasSpace};

use std::alloc::{AllocError, Global};
use std::marker::Model;

/// The most bytes of a message.
const MOST: usize = 2048;

/// Where a message stands among the bytes of all of them.
#[derive(Clone, Copy)]
pub(crate) struct MessagePlace {
    pub start: usize,
    pub end: usize,
}

/// Messages of at most 2,048 bytes, oldest first. Their bytes stand one behind the other in one room, so that
/// each takes as many as it has. Contracts see them as a list.
#[derive(Drop)]
pub struct Waiting {
    places: Vec<MessagePlace>,
    bytes: Vec<u8>,
}

impl Model for Waiting {
    ghost use Rattle.std.specs.Prelude.{◌-◌};
    ghost use Rattle.std.specs.List.{AllByRecursion};
    ghost use Rattle.std.specs.Vec.{vec_len, vec_capacity};
    ghost use Rattle.capture_store.specs.Waits.{WaitingData, IsPlaceIn, messages_at};

    ghost Value = { WaitingData };

    ghost view = { λ w. record {
      messages = messages_at w.places.items w.bytes.items;
      places_left = vec_capacity w.places - vec_len w.places;
      bytes_left = vec_capacity w.bytes - vec_len w.bytes;
    } };

    ghost invariant = { λ w. AllByRecursion (IsPlaceIn w.bytes.items) w.places.items };
}

impl Waiting {
    /// No messages.
    pub fn new(alloc: Global) -> Waiting
        ensures { result.messages ≡ [] }
    {
        Waiting {
            places: Vec::new(alloc),
            bytes: Vec::new(alloc),
        }
    }

    /// How many messages there are.
    pub fn len(&self) -> usize
        ensures { result ≡ length self.now.messages }
    {
        self.places.len()
    }

    /// Makes room for one message more. The messages stay, also where `AllocError`, want of memory, comes.
    pub fn reserve(&mut self) -> Result<(), AllocError>
        ensures room { OnOk result (HasSpace self.new) }
        ensures same { self.new.messages ≡ self.old.messages }
    {
        self.places.reserve(1)?;
        self.bytes.reserve(MOST)?;
        Ok(())
    }

    /// Adds a message behind the others, for which `reserve` has made room.
    pub fn push(&mut self, message: &[u8])
        requires room { HasSpace self.old }
        requires short { length message.now ≤ 2048 }
        ensures { self.new.messages ≡ self.old.messages ++ message.now ∷ [] }
    {
        let start = self.bytes.len();
        if self.bytes.extend_from_slice(message).is_err() {
            unreachable!();
        }
        let end = self.bytes.len();
        if self.places.push(MessagePlace { start, end }).is_err() {
            unreachable!();
        }
    }

    /// The message of this index, from 0.
    pub fn at(&self, index: usize) -> &[u8]
        requires { index < length self.now.messages }
        ensures message { slice_get self.now.messages index ≡ Some result.now }
        ensures short { length result.now ≤ 2048 }
    {
        let place = self.places[index];
        &self.bytes.as_slice()[place.start..place.end]
    }
}
