//! From an answer of the linear program back to the problem: the numbers of the unknowns from those of their columns, the
//! arrays of the variables from the numbers of the unknowns, and the multipliers of the constraints from what is kept of
//! their rows.
//!
//! Nothing is formed but the multipliers: a number of an unknown is that of a column, or its negative, since of the two
//! columns of a free unknown one at least is 0.
//!
//! | what must hold | where |
//! |---|---|
//! | a free unknown is the difference of its two columns, a nonneg one its column, a nonpos one its column negated | `unknown_numbers` |
//! | these are the unknowns that the columns of the program stand for; there are enough columns | `laws::columns_are_unknowns` |
//! | a point has an array of its shape for each variable, in order, with the numbers of the unknowns that stand for its entries | `point_of_unknowns` |
//! | the point of such arrays is that of the unknowns | `laws::arrays_are_points` |
//! | the form of each row of a constraint is at most 0, or 0 | `row_kind` |
//! | each constraint has an array of its shape with the multipliers of its rows, or exactly the first that passes is told with its row | `duals_of` |
//! | there is one such list of multipliers, or one first that passes | `laws::duals_are_one` |
//! | each entry is the multiplier of its row, the one by which the answer is right | `laws::duals_are_multipliers`, `laws::duals_are_right` |
//! | points that have the same entries of the variables have the same values | `laws::alike_points_have_values` |
//! | an answer that is right for a linear program is right for the reduced program whose rows it has: those of the constraints, in order and entry by entry, and then those beside them | `laws::answers_carry_over`, `specs/Programs.antt` |
//! | answers stay answers at such points, and at multipliers that are the same at the rows of the constraints | `laws::answers_stay` |
#![tactic(auto)]

mod duals;
pub mod laws;
mod numbers;
mod point;

pub use duals::{duals_of, row_kind};
pub use numbers::unknown_numbers;
pub use point::point_of_unknowns;
