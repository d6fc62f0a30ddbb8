//! What stops a setting.
use crate::Site;
use dcx_arena::NodeId;
use dcx_frac::Frac;
use dcx_shape::{Name, Shape};

/// Why a setting has no answer.
#[derive(Drop)]
pub enum Stop {
    /// The setting names something that isn't a parameter of the problem.
    UnknownParam {
        /// The name.
        name: Name,
    },
    /// A parameter of the problem has no value.
    MissingParam {
        /// The parameter's name.
        name: Name,
    },
    /// A value hasn't the shape of its parameter.
    ParamShape {
        /// The parameter's name.
        name: Name,
        /// The shape that the script declares.
        declared: Shape,
        /// The shape of the value.
        given: Shape,
    },
    /// An entry of a value hasn't the sign of its parameter.
    ParamSign {
        /// The parameter's name.
        name: Name,
        /// The entry, counted from 0.
        entry: u32,
        /// The number that stands there.
        value: Frac,
    },
    /// The reduced program has too many rows or columns.
    TooLarge {
        /// Its rows, or 4,294,967,295 where they are more.
        rows: u32,
        /// Its columns, or 4,294,967,295 where they are more.
        columns: u32,
    },
    /// An entry of a divisor is 0.
    ZeroDivisor {
        /// The node of the quotient.
        node: NodeId,
        /// The entry, counted from 0.
        entry: u32,
    },
    /// An operation passes 128 bits.
    Wide(Site),
    /// The run needs more pivots than are allowed.
    PivotLimit {
        /// How many are allowed.
        count: u64,
    },
    /// Memory ran out.
    Memory,
}
