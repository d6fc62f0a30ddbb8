//! The syntax trees of a script, and how each is spelled.
//!
//! `tree` has one struct or enum for each rule of the grammar. The rules stand in `specs/`: `Expressions` and `Statements` have one
//! kind of tree for each rule and say how it is spelled in the tokens of `Terminal`; `View` says which of these trees a tree of the
//! code is. How a tree is read from a text stands in `dcx_read`.
#![tactic(auto)]

mod bracket;
mod tree;

pub use bracket::Bracket;
pub use tree::{
    Added, Arg, Compared, Comparison, Expr, Factor, Import, Index, Line, Module, Named, Postfix,
    Power, Primary, Raised, Scaled, Scaling, Script, Sign, Signed, Signs, Step, Sum, Term, Trailer,
};
