//! The law above the definitions of `specs/`. There is no code: its clause is a statement about all numbers.
ghost use Rattle.dcx_fold.specs.Choices.{HoldsForChoices};

/// The sum of the k largest entries is the greatest of all choices of k entries, and that of the k smallest the least.
pub fn choices()
    ensures { HoldsForChoices }
{}
