//! Why a certificate is refused.
use crate::stop::Stop;
use dcx_arena::NodeId;
use dcx_frac::{Frac, Passes};
use std::alloc::{AllocError, AllocFailed};

/// Why a certificate is refused. Apart from the first and the last two, the faults stand in the order of the checks.
/// Parameters, variables, constraints, nodes and entries are counted from 0.
#[derive(Drop)]
pub enum CertFault {
    /// The bytes are no text of a certificate for the problem.
    Form {
        /// The first line that no such text has behind the lines before it, counted from 1.
        line: u32,
    },
    /// The setting doesn't fit the problem.
    Fit(Stop),
    /// A parameter's value isn't that of the setting.
    Setting {
        /// The parameter.
        parameter: u32,
        /// The entry.
        entry: u32,
        /// The number that the certificate states.
        stated: Frac,
        /// The number of the setting.
        found: Frac,
    },
    /// The point isn't in the domain.
    Domain {
        /// The variable.
        variable: u32,
        /// The entry.
        entry: u32,
        /// The number that stands there.
        value: Frac,
    },
    /// A constraint doesn't hold at the point.
    Constraint {
        /// The constraint.
        constraint: u32,
        /// The entry.
        entry: u32,
        /// The value of its left side.
        left: Frac,
        /// The value of its right side.
        right: Frac,
    },
    /// The minimized objective at the point isn't the stated value.
    Value {
        /// The stated value.
        stated: Frac,
        /// The minimized objective at the point.
        found: Frac,
    },
    /// A multiplier of an inequality is below 0.
    DualSign {
        /// The constraint.
        constraint: u32,
        /// The entry.
        entry: u32,
        /// The multiplier.
        value: Frac,
    },
    /// The gap isn't above 0.
    Gap {
        /// The gap.
        value: Frac,
    },
    /// The weights of an atom break one of its conditions.
    Slope {
        /// The atom's node.
        node: NodeId,
        /// The result entry.
        entry: u32,
        /// The left side of the condition, which the weights give.
        stated: Frac,
        /// Its right side.
        found: Frac,
    },
    /// What is collected at an entry of a variable hasn't the sign that its attribute asks for.
    Variable {
        /// The variable.
        variable: u32,
        /// The entry.
        entry: u32,
        /// What is collected there.
        value: Frac,
    },
    /// The bound that the numbers show is beyond the stated one.
    Bound {
        /// The stated value, gap or bound.
        stated: Frac,
        /// What the numbers show.
        found: Frac,
    },
    /// The slope isn't above 0.
    Descent {
        /// The slope.
        value: Frac,
    },
    /// The ray leaves the domain.
    RayDomain {
        /// The variable.
        variable: u32,
        /// The entry.
        entry: u32,
        /// The number that stands there.
        value: Frac,
    },
    /// The ray leaves the points at which a constraint holds.
    RayConstraint {
        /// The constraint.
        constraint: u32,
        /// The entry.
        entry: u32,
        /// The steepness of its left side along the ray.
        left: Frac,
        /// The steepness of its right side along the ray.
        right: Frac,
    },
    /// The minimized objective doesn't fall by the slope along the ray.
    RayValue {
        /// The negated slope.
        stated: Frac,
        /// The steepness of the minimized objective along the ray.
        found: Frac,
    },
    /// An operation of a check passes 128 bits.
    Wide(Passes),
    /// Memory ran out.
    Memory,
}

impl From<AllocError> for CertFault {
    ghost use Rattle.std.specs.Prelude.{◌≡◌};
    ghost use Rattle.dcx_answer.specs.declared.cert_fault.CertFault.TheVariants.{Memory};

    ghost from_gives = { λ _ e. e ≡ Memory };

    fn from(_: AllocError) -> Self {
        CertFault::Memory
    }
}

impl<T: Drop> From<AllocFailed<T>> for CertFault {
    ghost use Rattle.std.specs.Prelude.{◌≡◌};
    ghost use Rattle.dcx_answer.specs.declared.cert_fault.CertFault.TheVariants.{Memory};

    ghost from_gives = { λ _ e. e ≡ Memory };

    fn from(_: AllocFailed<T>) -> Self {
        CertFault::Memory
    }
}
