//! Why a problem isn't accepted.
ghost use Rattle.std.specs.Prelude.{◌≡◌};
ghost use Rattle.dcx_rules.specs.declared.fault.RuleFault.TheVariants.{Memory};

use dcx_tree::NodeId;
use std::alloc::{AllocError, AllocFailed};
use thiserror::Error;

/// The rule by which a problem isn't accepted.
#[derive(Clone, Copy, Debug)]
pub enum Rule {
    /// A call's arguments don't fit its curvature.
    Composition,
    /// A minimized objective isn't convex.
    Minimize,
    /// A maximized objective isn't concave.
    Maximize,
    /// A side of an equality isn't affine.
    Equal,
    /// The lesser side of an inequality isn't convex, or the greater one isn't concave.
    AtMost,
}

/// Where a rule is broken.
#[derive(Clone, Copy, Debug)]
pub enum RuleSite {
    /// At a call.
    Node(NodeId),
    /// At the objective.
    Objective,
    /// At a constraint, by its position from 0.
    Constraint(u32),
}

/// Why there is no verdict.
#[derive(Clone, Copy, Debug, Error)]
pub enum RuleFault {
    /// The rules don't accept the problem: this is the first site that breaks its rule.
    #[error("the rules of disciplined convex programming do not accept the problem")]
    NotDcp {
        /// Where.
        site: RuleSite,
        /// Its rule.
        rule: Rule,
    },
    /// No memory for the verdict.
    #[error("out of memory")]
    Memory,
}

impl From<AllocError> for RuleFault {
    ghost from_gives = { λ _ e. e ≡ Memory };

    fn from(_e: AllocError) -> RuleFault {
        RuleFault::Memory
    }
}

impl<T: Drop> From<AllocFailed<T>> for RuleFault {
    ghost from_gives = { λ _ e. e ≡ Memory };

    fn from(_e: AllocFailed<T>) -> RuleFault {
        RuleFault::Memory
    }
}
