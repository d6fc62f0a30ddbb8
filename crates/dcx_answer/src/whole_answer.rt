//! What branch and bound answers, and what stops it.
use crate::branch_tree::BranchTree;
use crate::stop::Stop;
use dcx_frac::Frac;
use dcx_point::Point;
use std::alloc::AllocError;

/// The answer to a problem with marked variables at a setting.
#[derive(Drop)]
pub enum WholeAnswer {
    /// A whole point that no other betters, with a tree that shows it.
    Optimal {
        /// The minimized objective at the point.
        value: Frac,
        /// A value of each variable.
        point: Point,
        /// The tree.
        tree: BranchTree,
        /// How many nodes the run has.
        nodes: u32,
    },
    /// There is no whole point, as this tree shows.
    Infeasible {
        /// The tree.
        tree: BranchTree,
        /// How many nodes the run has.
        nodes: u32,
    },
}

/// Why there is no answer.
#[derive(Drop)]
pub enum BranchStop {
    /// The objective falls for ever where no variable is marked, but for the bounds of boolean entries.
    RelaxationUnbounded,
    /// The run has more nodes than are allowed.
    NodeLimit {
        /// How many are allowed.
        limit: u32,
    },
    /// A node has no answer, or a multiplier of a leaf passes 128 bits.
    Node {
        /// The number of the node, counted from 1 in the order in which they are taken.
        node: u32,
        /// Why.
        stop: Stop,
    },
    /// Memory ran out.
    Memory,
}

impl From<AllocError> for BranchStop {
    ghost use Rattle.std.specs.Prelude.{◌≡◌};
    ghost use Rattle.dcx_answer.specs.declared.whole_answer.BranchStop.TheVariants.{Memory};

    ghost from_gives = { λ _ e. e ≡ Memory };

    fn from(_: AllocError) -> Self {
        BranchStop::Memory
    }
}
