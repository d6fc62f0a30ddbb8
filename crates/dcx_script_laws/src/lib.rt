//! Laws about the meaning of scripts. There is no code: each clause is a statement about all scripts.
//!
//! | what must hold | where |
//! |---|---|
//! | what a script stands for doesn't depend on the names of what it binds, but for the names themselves | `names::renamed`, `specs/Names.antt` |
//! | its problem as one of convex programming doesn't depend on them at all | `names::renamed`, `specs/Names.antt` |
//! | only lines bind names; an expression leaves them as they were, a comprehension too, and no name is bound twice | `bindings`, `specs/Bindings.antt` |
//! | the nodes of each state are a tree, which only grows, and values have no nodes but those that are there | `trees`, `specs/Trees.antt` |
//! | what stands in a `print` has no meaning | `printing`, `specs/Printing.antt` |
//! | `x - y` is `x + (-y)`, and `x >= y` is `y <= x` | `operators`, `specs/Differences.antt`, `Numbers.antt` |
#![tactic(auto)]

pub mod bindings;
pub mod names;
pub mod operators;
pub mod printing;
pub mod trees;
