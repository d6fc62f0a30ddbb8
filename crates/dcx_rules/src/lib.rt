//! The rules of disciplined convex programming: whether a problem is accepted, and what is known of its nodes.
//!
//! `check` judges each node from its arguments, by the rules of `dcx_convex` (`specs/Rules.antt` there): its sign, what it
//! reaches, and whether it is convex and concave. It does so twice, where a parameter is a number and where it is affine.
//!
//! | what must hold | where |
//! |---|---|
//! | `Ok` exactly where the rules accept | `check` |
//! | an accepted problem is convex at every fitting setting | `check` |
//! | sign, curvature and dpp are those of the definitions | `check`, `IsVerdictOf` of `specs/Verdicts.antt`; `Verdict::sign`, `Verdict::curvature`, `Verdict::dpp` |
//! | a verdict tells what a node reaches | `check`, `IsVerdictOf`; `Verdict::reaches_variable` |
//! | and what the rules say of it where parameters are affine | `check`, `IsVerdictOf`; `Verdict::is_dpp_constant` |
//! | sign and curvature are true of each node's value, at every fitting setting and over all points of the domain | `check`, `IsTrueOf` of `specs/Verdicts.antt` |
//! | a fault names the first site that breaks its rule: nodes, then the objective, then the constraints | `check`, `IsFirst` of `specs/Sites.antt` |
//!
//! That all nodes are judged in linear time is by design and in no contract.
#![tactic(auto)]

mod acceptance;
mod checking;
mod curvature;
mod fault;
mod judgement;
mod judgements;
mod verdict;

pub use checking::check;
pub use curvature::Curvature;
pub use dcx_tree::Sense;
pub use fault::{Rule, RuleFault, RuleSite};
pub use verdict::Verdict;
