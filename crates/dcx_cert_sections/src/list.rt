//! The list of the sections of a certificate.

use crate::Section;
use dcx_frac::List;

/// Sections, in the order of their settings.
pub type SectionList = List<Section>;
