//! The text of a certificate for a problem.
//!
//! | what must hold | where |
//! |---|---|
//! | what is written is the text of the sections, byte for byte | `write_cert`, `cert_text` of `dcx_cert_lines` |
//! | what is read is the certificate for the problem that the bytes are the text of; where they are the text of none, the first line up to which they agree with none is told | `read_cert`, `specs/Forms.antt` of `dcx_cert_lines` |
//! | bytes are the text of one certificate for a problem, and have one number of sections | `texts::texts_are_one`, `specs/Laws.antt` |
//! | what is written of a problem's certificate is read again: what the reading of its text may answer is that certificate, or want of memory | `texts::written_is_read` |
//! | bytes that are a certificate's text are refused at no line, and others at one | `refusals::texts_are_not_refused`, `refusals::lines_are_one` |
//! | where bytes are refused, a certificate goes on with each front of lines before the line that is told, and none with that line | `refusals::fronts_go_on` |
#![tactic(auto)]

mod read;
pub mod refusals;
pub mod texts;
mod write;

pub use dcx_answer::CertFault;
pub use dcx_cert_sections::{Cert, Format, NodeWeights, Section, SectionList, Sections, Weights};
pub use read::read_cert;
pub use write::write_cert;
