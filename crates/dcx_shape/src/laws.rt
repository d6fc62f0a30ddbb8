//! Laws above the definitions of `specs/`. There is no code: each clause is a statement about all shapes.
ghost use Rattle.dcx_shape.specs.Laws.{HoldsForBroadcasts, HoldsForSlices, HoldsForIndices, HoldsForReshapes};

/// Two arrays broadcast to one shape, in either order; of three, it doesn't matter which two come first.
pub fn broadcasts()
    ensures { HoldsForBroadcasts }
{}

/// A slice has one list of places, which rise or fall with its step; `:` takes all in order, and `::-1` all in reverse.
pub fn slices()
    ensures { HoldsForSlices }
{}

/// An index gives one shape and one list of places; whole slices give the array itself.
pub fn indices()
    ensures { HoldsForIndices }
{}

/// A reshape is a permutation of the places; there and back each entry is where it was.
pub fn reshapes()
    ensures { HoldsForReshapes }
{}
