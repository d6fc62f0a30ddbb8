//! The sections of a certificate, one for each setting.
use crate::{Cert, SectionList};

/// What a certificate has for a setting.
#[derive(Drop)]
pub enum Section {
    /// What shows the answer.
    Cert(Cert),
    /// Nothing: the setting has no answer, or none that can be shown.
    None,
}

/// Whether the setting's values are told.
#[derive(Clone, Copy)]
pub enum Format {
    /// They aren't, and no section is unbounded.
    One,
    /// They are, in each section that isn't empty.
    Two,
}

/// A certificate: its format, and a section for each setting.
#[derive(Drop)]
pub struct Sections {
    /// Whether the setting's values are told.
    pub format: Format,
    /// The sections, in the order of the settings.
    pub list: SectionList,
}
