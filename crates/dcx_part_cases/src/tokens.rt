//! Tokens of texts, and settings files.

pub(crate) mod faults;
pub(crate) mod files;
pub(crate) mod lists;
pub(crate) mod spelling;
