//! The calls of certificates with their types, gathered: `build` writes what shows an answer, `write_cert` and `read_cert` are its text,
//! and `certify` checks it. Their contracts stand where they are made.
#![tactic(auto)]

pub use dcx_cert_build::build;
pub use dcx_cert_check::certify;
pub use dcx_cert_text::{
    Cert, CertFault, Format, NodeWeights, Section, SectionList, Sections, Weights, read_cert,
    write_cert,
};
