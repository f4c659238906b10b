//! Where bytes go to, as a port.
ghost use Rattle.std.specs.Prelude.{ℕ, List, ◌<◌, length, IfOk};
ghost use Rattle.std.specs.declared.option.Option.{Option};
ghost use Rattle.std.specs.Io.{WritesAtMost};
ghost use Rattle.std.specs.Io.KnownBytes.{WriteAppends};
ghost use Rattle.emv_ports.specs.Causes.{HasCause};

use crate::Failed;

/// Where bytes go to.
pub trait Sink {
    /// The bytes that the sink holds, where it tells them.
    ghost held: { Self → Option (List ℕ) };

    /// How often the sink has failed: it never falls, and stops at the greatest `u64`.
    ghost faults: { Self → ℕ };

    /// Takes a prefix of `piece` and gives its length, which is above 0 where the piece is not empty.
    fn write(&mut self, piece: &[u8]) -> Result<usize, Failed>
        ensures bound { WritesAtMost result piece.now }
        ensures bytes { WriteAppends (held self.old) (held self.new) result piece.now }
        ensures takes { 0 < length piece.now → IfOk result (λ n. 0 < n) }
        ensures cause { HasCause (faults self.old) (faults self.new) result };
}
