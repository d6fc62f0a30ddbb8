//! The calls of an expression, which stand in the nodes of a tree.
//!
//! A call is a variable, a parameter, numbers, one of the nonlinear calls, one of the linear calls, or a product or
//! quotient. What these owe the traits of `dcx_atom` is told once for each group: `AtomCall` and `LinearCall` do what each
//! of their calls does, and `specs/Atoms.antt` and `specs/Linears.antt` have one line for each.
//!
//! | what must hold | where |
//! |---|---|
//! | each nonlinear and each linear call is what its own crate says, and keeps the laws | `AtomCall`, `LinearCall`, `specs/Atoms.antt`, `specs/Linears.antt` |
//! | shape, sign and trend of a call | `Call::shape`, `Call::sign`, `Call::trend`, `specs/Calls.antt` |
//! | what an attribute tells, which arrays are in a variable's domain, and which variables are square | `Variable::demanded`, `specs/Attributes.antt` |
//! | the value of a call over exact numbers of any size | `specs/Values.antt` |
//! | the value that is formed is that one, or names the first operation that passes 128 bits or the first divisor that is 0 | `Call::value`, `specs/Forming.antt` |
//! | where each number of the arguments is a fraction of 128 bits, an entry that is formed is the entry of the value | `laws::formed_entries_are_exact`, `specs/Exact.antt` |
//! | each value has the sign that is told, and moves with each argument as the trend says | `laws::calls`, `specs/Laws.antt` |
//! | whether the array that a leaf takes is given, with the shape of the leaf | `Call::is_given` |
//! | equal calls are told, share a number, and can be copied | `Operator` of `dcx_arena`, `specs/Buckets.antt` |
//! | a copy is the same again | `copy_variable`, `copy_parameter` |
#![tactic(auto)]

mod atoms;
mod attribute;
mod buckets;
mod call;
mod copies;
mod fill;
pub mod laws;
mod linears;
mod operator;
mod same;
mod value;

pub use atoms::AtomCall;
pub use attribute::{Attribute, Parameter, Variable, Whole};
pub use call::Call;
pub use copies::{copy_parameter, copy_variable};
pub use linears::LinearCall;
