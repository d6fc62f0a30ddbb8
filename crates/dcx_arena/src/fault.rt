//! Why a node is refused.
ghost use Rattle.std.specs.Prelude.{◌≡◌};
ghost use Rattle.dcx_arena.specs.declared.fault.TreeFault.TheVariants.{Memory};

use std::alloc::{AllocError, AllocFailed};
use thiserror::Error;

/// What there can be too much of.
#[derive(Clone, Copy, Debug)]
pub enum Count {
    /// Nodes of a tree.
    Nodes,
    /// Entries over all nodes of a tree.
    Entries,
    /// Items of the lists that a script makes.
    Items,
    /// Steps of a run.
    Steps,
    /// Events of a run.
    Events,
}

/// Why a node is refused.
#[derive(Clone, Copy, Debug, Error)]
pub enum TreeFault {
    /// The call has no value for arguments of these shapes.
    #[error("the shapes do not fit")]
    Clash,
    /// There would be so many, which is more than there may be.
    #[error("there would be too much")]
    TooMany { what: Count, count: u32 },
    /// No memory for the node.
    #[error("out of memory")]
    Memory,
}

impl From<AllocError> for TreeFault {
    ghost from_gives = { λ _ e. e ≡ Memory };

    fn from(_e: AllocError) -> TreeFault {
        TreeFault::Memory
    }
}

impl<T: Drop> From<AllocFailed<T>> for TreeFault {
    ghost from_gives = { λ _ e. e ≡ Memory };

    fn from(_e: AllocFailed<T>) -> TreeFault {
        TreeFault::Memory
    }
}
