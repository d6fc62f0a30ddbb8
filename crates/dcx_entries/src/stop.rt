//! What stops an entry.
ghost use Rattle.std.specs.Prelude.{◌≡◌};
ghost use Rattle.dcx_entries.specs.Forming.{stop_at};

use dcx_arena::NodeId;
use dcx_atom::ValueStop;
use dcx_frac::Passes;
use dcx_linear::CoefStop;
use thiserror::Error;

/// What stops entry `j`.
pub(crate) fn stop_at(j: u32, stop: CoefStop) -> ValueStop
    ensures { result ≡ stop_at j stop }
{
    match stop {
        CoefStop::Passes(passes) => ValueStop::Passes { entry: j, passes },
        CoefStop::Memory => ValueStop::Memory,
    }
}

/// Why the nodes of a problem aren't formed.
#[derive(Clone, Copy, Debug, Error)]
pub enum FormStop {
    /// An operation passes 128 bits.
    #[error("an operation passes 128 bits")]
    Passes {
        /// The node.
        node: NodeId,
        /// The entry, counted from 0.
        entry: u32,
        /// The operation and its operands.
        passes: Passes,
    },
    /// An entry of a divisor is 0.
    #[error("a divisor is 0")]
    ZeroDivisor {
        /// The node of the quotient.
        node: NodeId,
        /// The entry, counted from 0.
        entry: u32,
    },
    /// No memory.
    #[error("out of memory")]
    Memory,
}
