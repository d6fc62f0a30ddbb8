//! Laws above the definitions of `specs/`. There is no code: each clause is a statement about all plain arrays.
ghost use Rattle.dcx_array.specs.Laws.{HoldsForShapes, HoldsForForming, HoldsForPicks, HoldsForOperators};

/// The shapes of arrays, and of what two make together, are those that the relations of shapes say.
pub fn shapes()
    ensures { HoldsForShapes }
{}

/// An array is formed exactly where each entry is; else the first entry that isn't tells the operation that passes.
pub fn forming()
    ensures { HoldsForForming }
{}

/// Picks take what the relations of slices and indices say, or have the fault that these say.
pub fn picks()
    ensures { HoldsForPicks }
{}

/// Sums, differences, products, quotients and matrix products have the exact numbers.
pub fn operators()
    ensures { HoldsForOperators }
{}
