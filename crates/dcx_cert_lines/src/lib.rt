//! The text of a certificate: written of its sections, and read for the outline of a problem.
//!
//! A text is a list of lines (`specs/CertText.antt`), and a certificate is of a problem where it has its names, shapes,
//! counts and order (`specs/Forms.antt`). Where a problem is known, each line but for its numbers is one of a few: a
//! template (`specs/Templates.antt`). The inner functions say of the lines that they read which they are, and where reading
//! stops that the bytes begin with lines of so many templates and with none of the next.
//!
//! | what must hold | where |
//! |---|---|
//! | what is read is the certificate that the bytes are the text of | `read_outlined` |
//! | bytes are refused exactly where they are the text of none, with the first line up to which they agree with none | `read_outlined`, `IsMisfit` of `specs/Forms.antt` |
//! | the bytes are read in one pass, without recursion | `Cursor`, the loops of `arrays` and `whole` |
#![tactic(auto)]

mod arrays;
mod cursor;
mod heads;
mod kind;
mod section;
mod whole;

pub use kind::Kind;
pub use whole::read_outlined;
