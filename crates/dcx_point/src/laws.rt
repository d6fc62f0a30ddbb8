//! Laws above the definitions of `specs/`. There is no code: each clause is a statement about all pairs.
ghost use Rattle.dcx_point.specs.Laws.{HoldsForPuts};

/// What is put is found, and nothing else changes; a name that is there keeps its place, and a new one goes to the end.
pub fn puts()
    ensures { HoldsForPuts }
{}
