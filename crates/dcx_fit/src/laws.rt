//! Laws above the definitions of `specs/`. There is no code: each clause is a statement about all settings.
ghost use Rattle.dcx_fit.specs.Laws.{HoldsForStops, HoldsForFitting};

/// A setting fits, or one first misfit stops it, and not both.
pub fn fits_or_stops()
    ensures { HoldsForStops }
{}

/// A setting is a fitting one of a problem exactly where it fits the parameters and nothing is divided by 0.
pub fn fitting_is_meant()
    ensures { HoldsForFitting }
{}
