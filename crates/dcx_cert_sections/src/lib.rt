//! Certificates of the answers to a problem.
//!
//! A certificate has a section for each setting. A section shows what the answer is, by numbers that anyone can check: the
//! point, the multipliers of the constraints, and the weights of the atoms' rows, or the ray. Where a setting has no answer
//! that can be shown, its section is empty.
//!
//! | what must hold | where |
//! |---|---|
//! | a list is made of its items and gives them back without taking memory | `Weights`, `SectionList` |
//! | names, shapes, counts and order of a certificate are those of a problem | `IsCertOf`, `AreSectionsOf` of `specs/Shown.antt` |
//! | in format 1 no section is unbounded or has the setting's values, in format 2 each certificate has them | `AreOfFormat` of `specs/Formats.antt` |
//! | what a check of a certificate is, and checks one after the other, of which the first that fails counts | `specs/Checks.antt` |
//! | checks that tell one thing each tell one thing in order | `proofs/Settled.antt` |
#![tactic(auto)]

mod cert;
mod list;
mod outline;
mod section;
mod weights;

pub use cert::Cert;
pub use list::SectionList;
pub use outline::{AtomRows, Outline, Shown};
pub use section::{Format, Section, Sections};
pub use weights::{NodeWeights, Weights};
