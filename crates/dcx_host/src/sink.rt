//! Where bytes are written.
ghost use Rattle.std.specs.Prelude.{ℕ, ◌<◌, ◌≤◌, List, length, None, IfOk, IsErrOf};
ghost use Rattle.std.specs.declared.option.Option.{Option};
ghost use Rattle.std.specs.Io.KnownBytes.{WriteAppends};
ghost use Rattle.dcx_host.specs.Faults.{Rose};
ghost use Rattle.dcx_host.specs.Pieces.{Handed, WriteHands};

use thiserror::Error;

/// Why a piece was not written. Nothing of it was.
#[derive(Clone, Copy, Debug, PartialEq, Eq, Error)]
pub enum SinkFault {
    /// The sink took nothing, and has counted a fault.
    #[error("the piece could not be written")]
    Failed,
    /// Memory ran out.
    #[error("out of memory")]
    Memory,
}

/// A place that takes bytes, one piece after another.
///
/// A sink may tell contracts what was written to it, as one in memory does, or not, as standard
/// output. Its count of faults never falls.
pub trait Sink {
    /// The bytes written so far, where the sink tells them.
    ghost written: { Self → Option (List ℕ) };

    /// How often a write has failed. The count stands still at the end of a `u64`.
    ghost faults: { Self → ℕ };

    /// The pieces of which it took a front so far, one for each write, with how many bytes it took, where the sink tells them.
    ghost handed: { Self → Option (List Handed) } = { λ _. None };

    /// Appends the first `n` bytes of the piece and answers `n`, which is at least 1 unless the
    /// piece is empty.
    ///
    /// An `Err` has appended nothing. `Failed` comes only where the sink counts a fault in this
    /// call, and `Memory` freely.
    fn write(&mut self, piece: &[u8]) -> Result<usize, SinkFault>
        ensures never_falls { faults self.old ≤ faults self.new }
        ensures size { IfOk result (λ n. n ≤ length piece.now) }
        ensures some { 0 < length piece.now → IfOk result (λ n. 0 < n) }
        ensures written { WriteAppends (written self.old) (written self.new) result piece.now }
        ensures handed { WriteHands (handed self.old) (handed self.new) result piece.now }
        ensures failed { IsErrOf result SinkFault.Failed → Rose (faults self.old) (faults self.new) };
}
