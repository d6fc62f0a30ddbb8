//! Collecting coefficients over the nodes of a problem, from the last one down.
//!
//! Multipliers give the objective and the sides of constraints a coefficient for each entry. A node hands its coefficients on to
//! its arguments: a linear call by its terms, a product or a quotient by the numbers of the side that reaches no variable, and a
//! nonlinear call by the slopes that given weights show. What reaches a variable is kept, and what reaches a node without a
//! variable below it is counted with the node's value.
//! So the total, and what reaches the variables, bound the Lagrangian from below.
//!
//! Coefficients stand in one list, node by node and entry by entry. Since arguments stand before their call, the last node's are
//! the last of the list: each node takes its own off and adds to places before them. Nothing is copied.
//!
//! | what must hold | where |
//! |---|---|
//! | adding a number to a place, share by share, up to the first operation that passes 128 bits | `specs/Shares.antt` |
//! | where the entries of each node stand | `starts_of`, `specs/Starts.antt` |
//! | what each call hands on to which entry of which argument, and in what order; the first condition that weights break | `specs/Calls.antt` |
//! | the coefficients that multipliers give at the start, or the first addition that passes | `start_table`, `specs/Multipliers.antt` |
//! | these coefficients times the numbers of the nodes are the Lagrangian, or without the objective the penalty | `laws::starts_are_lagrangians` |
//! | what the pass collects, counts and keeps, or the first stop, nodes falling | `collect`, `specs/Pass.antt` |
//! | where all that reaches the variables may, by the test for their attributes, the total bounds the Lagrangian from below on the domain | `laws::totals_are_bounds` |
//! | so a feasible point of at most that value is optimal, and where the total without the objective is above 0 no point is feasible | `laws::totals_show_answers` |
//! | the total, and what reaches the variables, bound the coefficients at the start from below at every point | `laws::collected_is_a_bound`, `specs/Laws.antt` |
#![tactic(auto)]

mod collected;
pub mod laws;
mod linear;
mod multipliers;
mod node;
mod pairs;
mod pass;
mod places;
mod shares;
mod slopes;
mod stop;

pub use collected::{Collected, Reached, ReachedList};
pub use multipliers::start_table;
pub use node::CallWeights;
pub use pass::collect;
pub use places::{Given, starts_of};
pub use stop::CollectStop;
