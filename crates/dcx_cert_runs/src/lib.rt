//! The certificates of a problem at settings: of the answers that one session gives, and of sections that were read.
//!
//! | what must hold | where |
//! |---|---|
//! | there is a section for each setting, in order: the certificate of the session's answer; it is empty exactly where the setting is stopped, or a weight passes 128 bits | `certificate`, `specs/Sections.antt`: `IsCertificateAt` |
//! | it is told whether a setting is stopped | `certificate`: `stopped` |
//! | each section that isn't empty shows the answer at its setting | `laws::sections_are_shown` |
//! | names, shapes, counts and order are those of the problem | `laws::certificates_are_of` |
//! | settings have one certificate | `laws::certificates_are_one` |
//! | a problem that has a map is reduced once for all settings, another one at most once more at each | `certificate`: `mapped`, `anew` |
//! | sections that are read pass their checks, each at its setting, or the first that fails is told with its fault | `check_sections`, `specs/Checking.antt` |
//! | sections fail with one number and one fault, or pass | `laws::refusals_are_one` |
//! | sections are the same again in format 2, with the settings' values | `migrate`, `specs/Migrating.antt`: `IsMigrated` |
#![tactic(auto)]

mod building;
mod checking;
pub mod laws;
mod migrating;

pub use building::{Found, certificate};
pub use checking::{Refused, check_sections};
pub use migrating::migrate;
