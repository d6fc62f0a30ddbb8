//! Laws above the definitions of `specs/`. There is no code: each clause is a statement about all arrays or points.
ghost use Rattle.dcx_domain.specs.Laws.{HoldsForEntries, HoldsForPoints};

/// An array is in the domain of a variable exactly where each entry keeps what is demanded; each keeps it or leaves it, and
/// not both; of a square symmetric array the entries below the diagonal are asked.
pub fn entries()
    ensures { HoldsForEntries }
{}

/// A point is in the domain of a problem exactly where each variable's array is in the variable's domain.
pub fn points()
    ensures { HoldsForPoints }
{}
