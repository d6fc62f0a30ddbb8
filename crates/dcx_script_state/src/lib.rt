//! What is carried along while a script is carried out: names, nodes, declarations, the problem and its solves.
//!
//! Contracts see a `State` as the record `State` of `dcx_script_values`, and say of each method that it does what the definition
//! of the same name does to that record.
//!
//! | what must hold | where |
//! |---|---|
//! | a name that is bound keeps its place, and what was bound for a while is restored | `State::bind`, `State::restore` |
//! | a node is the one that is there with this call and these arguments, or one more behind the others | `State::push` |
//! | shapes are tested before anything comes to the tree | `State::called`, `State::broadcast_called`, `State::subtracted`, `State::constrained` |
//! | then come constants, promotions and the call, in this order | the same |
//! | no name is declared twice, and symmetric and diagonal variables are square | `State::declare_variable`, `State::declare_parameter`, `specs/Kept.antt`, `specs/Lists.antt` |
//! | each variable and parameter of the tree is declared with all its fields | the same |
//! | a problem begins at nodes of the tree, and which parameters it reaches doesn't change when nodes come behind | `State::make_problem`, `specs/Kept.antt` |
//! | a solve keeps the values that stand then, of the parameters that the problem reaches | `State::solve` |
//! | the problem is what the whole tree has of it at the end | `State::finish` |
//! | limits of steps, nodes, entries and solves, each with its count | `State::step`, `State::push`, `State::solve` |
#![tactic(auto)]

mod declare;
mod declared;
mod flags;
mod nodes;
mod problem;
mod state;

pub use flags::Flags;
pub use problem::Asking;
pub use state::State;
