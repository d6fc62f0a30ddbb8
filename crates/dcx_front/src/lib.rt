//! From the bytes of a script to an accepted problem, with its settings and its verdict, or to the one refusal.
//!
//! Every word of the program enters here: `accept` reads the bytes, carries the script out, and has the rules judge its
//! problem. What has which number is said in this crate alone; the numbers' names stand with the refusals, in `dcx_refusal`.
//!
//! | what must hold | where |
//! |---|---|
//! | accepted is the problem that the bytes stand for, with its settings | `accept`, `Gives` of `specs/Accepts.antt` |
//! | the rules accept it, it is convex at every fitting setting, and the verdict is its own | `accept`, `Gives` |
//! | refused is the first fault of reading, or of carrying out, or the first site that breaks its rule, at its place in the script | `accept`, `Gives` |
//! | the bytes give no other answer, want of memory aside | `accept`, `IsOnlyAnswer` of `specs/OneAnswer.antt`; `laws::one_answer` |
//! | bytes are refused exactly where they are at fault, and accepted exactly where they are not | `accept`, `IsVerdictOn`; `laws::one_verdict` |
//! | what is told of an accepted problem is true of it: sense, sign, curvature and dpp, and each count | `Accepted::checked`, `IsFoundOf` of `specs/Checks.antt` |
//! | the rules say one thing of a problem | `laws::one_judgement` |
//! | a fault of reading has one number, whatever file it is of | `unread` |
//! | no name is declared twice, so that there are no more variables, and no more parameters, than nodes | `counts`, by `few_variables` and `few_parameters` of `proofs/Few.antt` in `dcx_tree` |
#![tactic(auto)]

mod accepted;
mod accepting;
mod counts;
mod fault;
pub mod laws;
mod numbers;
mod sites;

pub use accepted::Accepted;
pub use accepting::accept;
pub use dcx_elab::{Work, elaborate};
pub use fault::FrontFault;
pub use numbers::unread;
