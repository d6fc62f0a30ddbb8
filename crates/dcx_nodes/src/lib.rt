//! The forms of all nodes of a problem, formed one node after the other.
//!
//! A node is a number by the rules, or it is reduced. A number is its call's value at the numbers of its arguments. The entries of
//! a node that is reduced have forms over unknowns: a variable has its own, a parameter its entries, and any other call forms
//! its entries from the forms of its arguments, as `dcx_entries` says. The auxiliary unknowns of atoms are numbered node by node,
//! behind the unknowns of the variables. The rows of graphs are kept apart from the forms, with their node, entry and number.
//! The forms of the objective and of the sides of constraints are kept to the end; those of any other node are given back behind
//! the last node that takes it. Forming stops at the first node and entry with an operation that passes 128 bits or a divisor
//! that is 0.
//!
//! Which nodes are reduced, and which reach no variable, is told by two lists. What is promised holds for all rules by which
//! these are the marks.
//!
//! | what must hold | where |
//! |---|---|
//! | each node is formed from its arguments, the forms of the roots are kept, and all rows, or the first node and entry that stops is told | `form_nodes`, `specs/SoFar.antt` |
//! | a number is formed exactly: it is the value at the numbers of the arguments | `number`, by `dcx_call` |
//! | a variable has its own unknowns, and a parameter its own entries | `leaf` |
//! | an atom takes the next auxiliary unknowns, and speaks of no others | `calls`, `specs/Given.antt` |
//! | a side that is a number, or an affine number where the other side has numbers, scales the other side | `products`, `specs/Marks.antt` |
//! | rows keep their node, their entry and their number | `rows` |
//! | nodes are formed in one way, where the entries of parameters have one answer | `laws::one_forming` |
//! | the forms of a node stand while it is asked for, and behind its last use an empty list | `forming`, `release`, `uses`, `specs/Uses.antt` |
//! | one step is counted for each node where all are formed, and else at most one for each | `form_nodes`: `steps`, `begun` |
#![tactic(auto)]

mod calls;
mod count;
mod forming;
mod given;
pub mod laws;
mod leaf;
mod node;
mod nodes;
mod number;
mod products;
mod release;
mod rows;
mod uses;

pub use nodes::form_nodes;
