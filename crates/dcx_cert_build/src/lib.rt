//! The certificate of an answer: the numbers of the answer, the values of the setting, and the weights of the atoms from what is kept
//! of the rows of their graphs.
//!
//! A row of the graph of an atom that has a variable below it has a weight, the multiplier of the row. In a program whose
//! coefficients were affine in the parameters, atoms that have a parameter below them and no variable have rows as well: those
//! have no weight, and nothing is formed of them.
//!
//! | what must hold | where |
//! |---|---|
//! | the certificate has the numbers of the answer as they stand, the arrays of the parameters in order of declaration, and the weights | `build`, `specs/Built.antt`: `IsBuilt` |
//! | each atom that has a variable below it has the multipliers of the rows of its graph, in order | `specs/Weights.antt`: `AreWeights` |
//! | these are its rows by result entry and row | `specs/Origins.antt`: `IsLaidOut`, `laws::programs_are_laid_out` |
//! | names, shapes, counts and order are those of the problem, and the setting's values are told | `build` |
//! | the first weight that passes 128 bits is told, with its row; where the objective falls for ever none is formed | `build`, `specs/Built.antt`: `StopsBuilding` |
//! | an answer has one certificate, or one weight that passes first | `laws::certs_are_one` |
#![tactic(auto)]

mod building;
mod copies;
mod forming;
pub mod laws;
mod weights;

pub use building::build;
pub use copies::values_of;
