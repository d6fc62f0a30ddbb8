//! Laws above the meaning of scripts. There is no code: each clause is a statement about all scripts.
ghost use Rattle.dcx_elab.specs.Laws.{HoldsForLines, HoldsForTurns};

/// A script is its lines one after the other, and what follows a fault has no effect.
pub fn lines()
    ensures { HoldsForLines }
{}

/// A `for` and a comprehension take their turns one after the other, and a comprehension leaves its name as it was.
pub fn turns()
    ensures { HoldsForTurns }
{}
