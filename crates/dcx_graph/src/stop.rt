//! Why a problem has no reduced program.
use dcx_answer::Site;
use dcx_arena::NodeId;
use std::alloc::{AllocError, AllocFailed};
use thiserror::Error;

/// Why a problem has no reduced program.
#[derive(Clone, Copy, Debug, PartialEq, Eq, Error)]
pub enum ReduceStop {
    /// There are over 600 rows or 2,400 columns.
    #[error("the program has {rows} rows and {columns} columns")]
    TooLarge {
        /// The rows, or 4,294,967,295 where they are more.
        rows: u32,
        /// The columns, or 4,294,967,295 where they are more.
        columns: u32,
    },
    /// An entry of a divisor is 0.
    #[error("a divisor is 0")]
    ZeroDivisor {
        /// The node of the quotient.
        node: NodeId,
        /// The entry, counted from 0.
        entry: u32,
    },
    /// An operation passes 128 bits, the first one.
    #[error("an operation passes 128 bits")]
    Wide(Site),
    /// No memory.
    #[error("out of memory")]
    Memory,
}

impl From<AllocError> for ReduceStop {
    ghost use Rattle.std.specs.Prelude.{◌≡◌};
    ghost use Rattle.dcx_graph.specs.declared.stop.ReduceStop.TheVariants.{Memory};

    ghost from_gives = { λ _ e. e ≡ Memory };

    fn from(_: AllocError) -> Self {
        ReduceStop::Memory
    }
}

impl<T: Drop> From<AllocFailed<T>> for ReduceStop {
    ghost use Rattle.std.specs.Prelude.{◌≡◌};
    ghost use Rattle.dcx_graph.specs.declared.stop.ReduceStop.TheVariants.{Memory};

    ghost from_gives = { λ _ e. e ≡ Memory };

    fn from(_: AllocFailed<T>) -> Self {
        ReduceStop::Memory
    }
}
