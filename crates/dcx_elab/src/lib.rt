//! What a script stands for: its problem, the setting of each solve and the setting at its end, or its first fault.
//!
//! The meaning of the language is a function of the syntax tree, one line for each form and for each call:
//!
//! | what is meant | where |
//! |---|---|
//! | the kinds of values, what is carried along, and the first fault | `dcx_script_values`, `specs/Values.antt` |
//! | nodes: constants, promotions, calls | `dcx_script_values`, `specs/Nodes.antt` |
//! | declarations, the problem, its solves | `dcx_script_state`, `specs/Declarations.antt` |
//! | the calls as a table, and how arguments are given | `dcx_signature`, `specs/Table.antt`, `Arguments.antt` |
//! | operators and indices on values of any kind | `dcx_operators`, `specs/Operators.antt`, `Indices.antt` |
//! | what each call does | `dcx_functions`, `specs/Calls.antt` |
//! | each form of an expression, each line, and the script | `specs/Expressions.antt`, `Statements.antt`, `Meaning.antt` |
//!
//! | what must hold | where |
//! |---|---|
//! | what a script stands for, or its first fault with its place; want of memory is free | `elaborate` |
//! | an expression gives its value and leaves its state, or is the first fault | `expressions::expr` |
//! | so does a line | `statements::lines` |
//! | a script is its lines in order, a `for` its turns; a turn of a comprehension leaves its name as it was, where its element keeps names distinct | `laws::lines`, `laws::turns` |
#![tactic(auto)]

mod called;
mod expressions;
pub mod laws;
mod leaves;
mod statements;
mod work;

pub use dcx_script_values::ElabFault;
pub use work::{Events, Work, elaborate};
