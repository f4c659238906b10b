//! A source over memory.
ghost use Rattle.std.specs.Prelude.{◌≡◌, ℕ, List, Some, ◌+◌, ◌-◌, ◌^◌, ◌≤◌, ◌<◌, ◌++◌, ◌↔◌, min, length, take, drop, Contains, IsTrue, IsErr, IfOk, OnErr};
ghost use Rattle.std.specs.declared.option.Option.{Option};
ghost use Rattle.emv_ports.specs.Moving.{ReadsSource};
ghost use Rattle.emv_ports.specs.State.{CountsRead};

use crate::{Failed, Source};
use std::marker::Model;

/// A source over memory that fails at chosen calls, and gives at most so many bytes a call.
#[derive(Drop)]
pub struct MemorySource {
    bytes: Vec<u8>,
    given: usize,
    most: usize,
    fails: Vec<u32>,
    calls: u64,
    faults: u64,
}

impl Model for MemorySource {
    ghost use Rattle.std.specs.Prelude.{◌≤◌, ◌<◌, drop, length};
    ghost use Rattle.emv_ports.specs.State.{SourceState};

    ghost Value = { SourceState };

    ghost view = { λ s. record { left = drop s.given s.bytes.items; most = s.most; fails = s.fails.items; calls = s.calls; faults = s.faults } };

    ghost invariant = { λ s. (s.given ≤ length s.bytes.items) × (0 < s.most) };
}

impl MemorySource {
    ghost use Rattle.emv_ports.specs.State.{new_source};

    /// A source with these bytes left, that gives as many a call as fit. The calls of `read` with
    /// these numbers fail; the first call is number 1.
    pub fn new(bytes: Vec<u8>, fails: Vec<u32>) -> MemorySource
        ensures { result ≡ new_source bytes.items fails.items (2 ^ 64 - 1) }
    {
        MemorySource::slow(bytes, fails, usize::MAX)
    }

    /// As `new`, but a call gives at most `most` bytes.
    pub fn slow(bytes: Vec<u8>, fails: Vec<u32>, most: usize) -> MemorySource
        requires most { 0 < most }
        ensures { result ≡ new_source bytes.items fails.items most }
    {
        MemorySource {
            bytes,
            given: 0,
            most,
            fails,
            calls: 0,
            faults: 0,
        }
    }
}

impl Source for MemorySource {
    ghost left = { λ s. Some s.left };

    ghost faults = { λ s. s.faults };

    /// Gives as much as is left and fits, up to the most of one call.
    fn read(&mut self, out: &mut [u8]) -> Result<usize, Failed>
        ensures reads { ReadsSource (Some self.old.left) (Some self.new.left) self.old.faults self.new.faults out.new result }
        ensures exactly { IsErr result ↔ Contains self.old.fails self.new.calls }
        ensures fits { IfOk result (λ n. n ≡ min self.old.most (min (length self.old.left) (length out.old))) }
        ensures counts { CountsRead self.old self.new result }
    {
        self.calls = self.calls.saturating_add(1);
        if is_numbered(&self.fails, self.calls) {
            self.faults = self.faults.saturating_add(1);
            return Err(Failed);
        }
        let left = self.bytes.len() - self.given;
        let count = self.most.min(left.min(out.len()));
        copy_from(&self.bytes, self.given, count, out);
        self.given += count;
        Ok(count)
    }
}

/// Whether the call of this number is among those that fail.
pub(crate) fn is_numbered(fails: &[u32], call: u64) -> bool
    ensures { IsTrue result ↔ Contains fails.now call }
{
    fails.iter().any(|number| u64::from(*number) == call)
}

/// Copies so many bytes from a place on to the front of `out`.
fn copy_from(bytes: &[u8], start: usize, count: usize, out: &mut [u8])
    requires within { start + count ≤ length bytes.now }
    requires fits { count ≤ length out.old }
    ensures bytes { drop start bytes.now ≡ take count out.new ++ drop (start + count) bytes.now }
    ensures long { length out.new ≡ length out.old }
{
    out[..count].copy_from_slice(&bytes[start..start + count]);
}
