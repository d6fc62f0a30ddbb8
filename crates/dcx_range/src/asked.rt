//! What a range is asked of.
use dcx_call::Attribute;
use dcx_frac::Frac;

/// What a range is asked of.
#[derive(Clone, Copy)]
pub(crate) struct Asked {
    /// The position of the parameter, in order of declaration.
    pub(crate) position: usize,
    /// What is demanded of it.
    pub(crate) attribute: Attribute,
    /// Its value at the setting.
    pub(crate) at: Frac,
}
