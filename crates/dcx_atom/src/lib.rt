//! What a call of an expression promises: the traits of nonlinear and of linear calls, their laws, and the types that
//! they answer.
//!
//! A call says what it is by one ghost value, its `meaning`, over exact numbers of any size. The laws are members of the
//! traits, so that each call proves them of its meaning, and each answer of its code is exact against that meaning.
//!
//! | what must hold | where |
//! |---|---|
//! | shape, sign, trend and bend are those of the meaning | `Atom`, `LinearOp` |
//! | a value is the defined one, or names the first addition that passes 128 bits | `Atom::value`, `specs/Value.antt` |
//! | unknowns, rows and results of a graph are those of the meaning | `Atom::graph`, `specs/Graph.antt` |
//! | slopes are those of the weights, or name the first condition that is broken or operation that passes | `Atom::slopes`, `specs/Steps.antt` |
//! | the terms of a linear call are those of the meaning | `LinearOp::map`, `specs/Linear.antt` |
//! | sign, monotonicity, curvature, graph soundness and tightness, subgradient, recession | laws of `Atom`, `specs/Laws.antt` |
//! | the graph speaks of no unknowns but its own | law of `Atom`, `specs/OwnUnknowns.antt` |
//! | slopes are those of the weighted rows, and the conditions are met by weights that let no unknown lower the sum | law of `Atom`, `specs/Duality.antt` |
//! | coefficients of the graph, summands and slopes are fractions of 128 bits | laws of `Atom`, `specs/Fractions.antt` |
//! | linearity, sign, monotonicity | laws of `LinearOp`, `specs/Linear.antt` |
//! | curvature, recession and subgradient follow from the graph | `proofs/Sublinear.antt`, `proofs/Duality.antt` |
//! | where rows that put one unknown beyond some terms hold, and what their weights balance | `proofs/BoundRows.antt` |
//! | each weight at least 0, then their sum at most the coefficient, or equal to it where the unknown is free | `check_total`, `specs/Bounding.antt` |
//! | a copy is the same again | `copy_array` |
#![tactic(auto)]

mod array;
mod atom;
mod axis;
mod bounding;
mod flags;
mod forming;
mod graph;
mod linear;
mod shapes;
mod stops;
mod terms;

pub use array::{Array, copy_array};
pub use atom::Atom;
pub use axis::{Axis, Stride};
pub use bounding::{
    bounding_row, check_sum, check_total, each_alone, farther_of, greater, lesser, magnitude,
    of_kind, only_shape, outward_of, row_weights,
};
pub use dcx_frac::Frac;
pub use dcx_shape::{Name, copy_name};
pub use flags::{Bend, Sign, Trend, all_nonneg, all_nonpos, first_sign};
pub use forming::{
    add_product, check_at_most, check_equal, check_weights, is_at_most, is_equal, minus_one,
    number_at, sum_all,
};
pub use graph::{
    AuxKind, AuxKinds, AuxTerm, Graph, GraphForm, GraphForms, GraphRow, GraphRows, GraphTerm,
    GraphTerms, Operand,
};
pub use linear::LinearOp;
pub use shapes::same_shape;
pub use stops::{SlopeStop, ValueStop};
pub use terms::{EntryTerms, Terms, Triple};
