//! The calls that fold entries into one: the greatest and the least, norms, sums of the largest and of the smallest, and the
//! running maximum.
//!
//! Each is an `Atom` of `dcx_atom` with all its laws. The greatest, the least and both norms are one call, `Folding`, over
//! groups of entries: all entries are one group, or each column of a matrix is one, or each row. They differ in what an
//! entry goes in as, itself or its magnitude, and in what a group becomes. The sums of the largest and of the smallest are
//! another call, `Largest`, whose concave half is the mirror image of its convex one. The running maximum stands alone.
//!
//! | what must hold | where |
//! |---|---|
//! | the groups along a side, each entry a member of one | `specs/Groups.antt`, `specs/GroupLaws.antt` |
//! | `MaxOf` is the greatest of a group, `MinOf` the least, `Norm1` the sum of magnitudes, `NormInf` the greatest of them | `specs/Folds.antt` |
//! | `SumLargest` is the sum of the first so many in falling order, `SumSmallest` of the first so many in rising order | `specs/Largest.antt` |
//! | `CumMax` is at each entry of a vector the greatest so far | `specs/Running.antt` |
//! | sums are formed in order: `Norm1` along the group, `SumLargest` from the greatest down, `SumSmallest` from the least up | `fold_value`, `chosen_sum` |
//! | rows, unknowns and results of a graph, group by group | `fold_graph`, `entry_rows`, `level_result`, `running::entry_rows` |
//! | each weight at least 0, then each condition, then each slope, group by group | `slopes_by_group`, `check_chosen`, `check_entry` |
//! | slopes in the order of the argument's entries | `by_entry` |
//! | sign, monotonicity, curvature, graph soundness and tightness, subgradient, recession | `specs/FoldLaws.antt`, `specs/LargestLaws.antt`, `specs/RunningLaws.antt` |
//! | any level bounds the sum of the largest, and the last of them is exact | `specs/Sorted.antt` |
//! | the k largest have the greatest sum of all choices of k entries, the k smallest the least | `laws::choices`, `specs/Choices.antt` |
#![tactic(auto)]

mod chosen;
mod cummax;
mod extremes;
mod fold_graphs;
mod fold_slopes;
mod fold_values;
mod folding;
mod largest;
pub mod laws;
mod norms;
mod running;

pub use chosen::{SumLargest, SumSmallest};
pub use cummax::CumMax;
pub use dcx_atom::Axis;
pub use extremes::{MaxOf, MinOf};
pub use norms::{Norm1, NormInf};
