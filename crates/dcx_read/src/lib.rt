//! The parser: the syntax tree of a script.
//!
//! The trees and the rules of the grammar are those of `dcx_syntax`. `specs/Terminals.antt` says what the grammar sees in a token, with
//! the bytes and the place that a tree keeps of it.
//!
//! | what must hold | where |
//! |---|---|
//! | a file is read exactly where its bytes spell a script, whose tree is the answer | `parse`, by `specs/Parses.antt` and `read_text` of `dcx_tokens` |
//! | each refusal comes exactly where the one order of refusals says, with its place | `parse`, by `specs/Parses.antt` and `read_text` of `dcx_tokens` |
//! | the tree of tokens is read, or the first token is told such that no script begins with the tokens up to it; want of memory is free | `parser::parse_tokens`, by `specs/Parses.antt` |
//! | tokens have at most one tree | `laws::scripts`, `one` |
//! | tokens have a tree, or a first token such that no script begins with the tokens up to it | `laws::scripts`, `decided` |
//! | and never both | `laws::scripts`, `apart` |
//! | one token decides what is read | `specs/Moves.antt`, by `proofs/Decided.antt`, on which the law rests |
//! | what the grammar sees in a token | `role::role_in` |
//! | what stands at the front of the tokens | `front` |
//! | a tree of the code is the tree of the grammar that its parts make | `made`, by `specs/View.antt` of `dcx_syntax` |
//! | each rule is read as the grammar says, or reading stops at the first token that it doesn't go on with | `expression`, `statement`, by `specs/Steps.antt`, `Lines.antt` |
//!
//! `parse` reads the bytes of a file, and goes down the rules over their tokens, one function for each: `expression` and `statement`.
//! They call themselves only through brackets and blocks, of which tokens have no more than 64 open at once.
#![tactic(auto)]

mod expression;
mod front;
pub mod laws;
mod made;
mod parser;
mod role;
mod statement;

pub use dcx_syntax::{
    Added, Arg, Compared, Comparison, Expr, Factor, Import, Index, Line, Module, Named, Postfix,
    Power, Primary, Raised, Scaled, Scaling, Script, Sign, Signed, Signs, Step, Sum, Term, Trailer,
};
pub use dcx_tokens::{ReadFault, tokens};
pub use parser::parse;
