//! What holds of every warm run. There is no code: each clause is a statement about all tableaus.
ghost use Rattle.dcx_warm.specs.Laws.{EndsOnce, EndsOptimal};

/// A run has one end, and one tableau there.
pub fn ends_once()
    ensures { EndsOnce }
{}

/// From the first tableau of a program, a run that ends optimal leaves a tableau from which the answer is read.
pub fn ends_optimal()
    ensures { EndsOptimal }
{}
