//! Operators, indices and attributes on values of any kind: what each makes of its operands, or its first fault.
//!
//! Each function does what the definition of the same name in `specs/` says (`Gives` of `dcx_script_values`): its value and what is
//! then carried along, or the first fault with its place. Want of memory alone is free.
//!
//! | what must hold | where |
//! |---|---|
//! | plain values give a plain value at once, lists are joined by `+` alone, and an expression takes what may stand for one beside it | `beside` of `specs/Operators.antt` |
//! | all else is of a wrong kind | `beside` of `specs/Operators.antt` |
//! | `a - b` is `a + (-b)`, and its promotions come behind the negation | `add_values` |
//! | of two expressions a side of `*` must have one entry; `/` broadcasts, `@` has the shapes of a matrix product | `scale_values` |
//! | a `+` before a value is the value itself, and of lists neither sign is taken | `sign_value` |
//! | `a >= b` is `b <= a`; `<`, `>`, `!=` are refused whatever is compared, and then plain values | `compare_values` |
//! | a part of an index that is no whole number, and the step 0, come before too many indices, and these before the first index that takes nothing | `index_value`, `specs/Indices.antt` |
//! | a whole number of any size counts as itself, though an index has 64 bits | `nearest` of `specs/View.antt`, `proofs/Indexed.antt` |
//! | `.T` of a scalar or a vector is the same node; every other attribute is refused | `attribute_value`, `specs/Attributes.antt` |
#![tactic(auto)]

mod attributes;
mod indices;
mod operators;
mod plain;

pub use attributes::attribute_value;
pub use indices::{Evaluated, index_value};
pub use operators::{add_values, compare_values, scale_values, sign_value};
