//! A sink over memory.
ghost use Rattle.std.specs.Prelude.{◌≡◌, ℕ, List, Some, ◌+◌, ◌-◌, ◌^◌, ◌≤◌, ◌<◌, ◌++◌, ◌↔◌, ◌⊎◌, min, length, Contains, IsErr, IfOk, OnErr};
ghost use Rattle.std.specs.declared.option.Option.{Option};
ghost use Rattle.emv_ports.specs.Causes.{one_more};
ghost use Rattle.emv_ports.specs.Moving.{WritesSink};
ghost use Rattle.emv_ports.specs.State.{CountsWrite};

use crate::memory_source::is_numbered;
use crate::{Failed, Sink};
use std::alloc::{AllocError, Global};
use std::marker::Model;

/// A sink over memory of a fixed room that fails at chosen calls, and takes at most so many bytes a
/// call.
#[derive(Drop)]
pub struct MemorySink {
    bytes: Vec<u8>,
    room: usize,
    most: usize,
    fails: Vec<u32>,
    calls: u64,
    faults: u64,
}

impl Model for MemorySink {
    ghost use Rattle.std.specs.Prelude.{◌≤◌, ◌<◌, vec_len, vec_capacity};
    ghost use Rattle.emv_ports.specs.State.{SinkState};

    ghost Value = { SinkState };

    ghost view = { λ s. record { held = s.bytes.items; room = s.room; most = s.most; fails = s.fails.items; calls = s.calls; faults = s.faults } };

    ghost invariant = { λ s. (vec_len s.bytes ≤ s.room) × (s.room ≤ vec_capacity s.bytes) × (0 < s.most) };
}

impl MemorySink {
    ghost use Rattle.emv_ports.specs.State.{new_sink};

    /// An empty sink that can hold `room` bytes, all of them reserved now. The calls of `write`
    /// with these numbers fail; the first call is number 1.
    pub fn new(alloc: Global, room: usize, fails: Vec<u32>) -> Result<MemorySink, AllocError>
        ensures { IfOk result (λ s. s ≡ new_sink room fails.items (2 ^ 64 - 1)) }
    {
        MemorySink::slow(alloc, room, fails, usize::MAX)
    }

    /// As `new`, but a call takes at most `most` bytes.
    pub fn slow(
        alloc: Global,
        room: usize,
        fails: Vec<u32>,
        most: usize,
    ) -> Result<MemorySink, AllocError>
        requires most { 0 < most }
        ensures { IfOk result (λ s. s ≡ new_sink room fails.items most) }
    {
        Ok(MemorySink {
            bytes: Vec::with_capacity(alloc, room)?,
            room,
            most,
            fails,
            calls: 0,
            faults: 0,
        })
    }

    /// What the sink holds.
    pub fn bytes(&self) -> &[u8]
        ensures { result.now ≡ self.now.held }
    {
        &self.bytes
    }

    fn fail(&mut self) -> Failed
        ensures { self.new ≡ record self.old { faults = one_more self.old.faults } }
    {
        self.faults = self.faults.saturating_add(1);
        Failed
    }
}

impl Sink for MemorySink {
    ghost held = { λ s. Some s.held };

    ghost faults = { λ s. s.faults };

    /// Takes as much as fits, up to the most of one call.
    fn write(&mut self, piece: &[u8]) -> Result<usize, Failed>
        ensures writes { WritesSink (Some self.old.held) (Some self.new.held) self.old.faults self.new.faults piece.now result }
        ensures exactly { IsErr result ↔ (Contains self.old.fails self.new.calls ⊎ ((0 < length piece.now) × (self.old.room ≤ length self.old.held))) }
        ensures fits { IfOk result (λ n. n ≡ min self.old.most (min (length piece.now) (self.old.room - length self.old.held))) }
        ensures counts { CountsWrite self.old self.new result }
    {
        self.calls = self.calls.saturating_add(1);
        if is_numbered(&self.fails, self.calls) {
            return Err(self.fail());
        }
        let room = self.room - self.bytes.len();
        let count = self.most.min(piece.len().min(room));
        if count == 0 && !piece.is_empty() {
            return Err(self.fail());
        }
        if self.bytes.extend_from_slice(&piece[..count]).is_err() {
            unreachable!();
        }
        Ok(count)
    }
}
