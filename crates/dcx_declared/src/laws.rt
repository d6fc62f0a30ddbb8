//! Laws above the definitions of `specs/`. There is no code: each clause is a statement about all problems.
ghost use Rattle.dcx_declared.specs.Whole.{PlacesAreOne};

/// A name stands at one place, and so does the first variable that is to be whole.
pub fn places_are_one()
    ensures { PlacesAreOne }
{}
