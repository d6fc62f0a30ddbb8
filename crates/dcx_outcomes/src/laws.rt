//! What holds of all outcomes. There is no code: each clause is a statement about all of them.
ghost use Rattle.dcx_outcomes.specs.Complete.{OutcomesAreComplete};
ghost use Rattle.dcx_outcomes.specs.FilterLaws.{FiltersAreRight, FiltersAreOne};
ghost use Rattle.dcx_outcomes.specs.RangeLaws.{RangeIsTold, RangesAreRight, RangesAreOne};
ghost use Rattle.dcx_outcomes.specs.Laws.{OutcomesAreRight, OutcomesAreOne, WholesAreRight, WholesAreOne, WarmOutcomesAreRight, WarmOutcomesAgree, WarmOutcomesAreOne};

/// Each answer among the outcomes of an accepted problem is right at its setting, which fits.
pub fn outcomes_are_right()
    ensures { OutcomesAreRight }
{}

/// Settings of an accepted problem have one list of outcomes, with all their numbers; want of memory is free.
pub fn outcomes_are_one()
    ensures { OutcomesAreOne }
{}

/// Each answer among the warm outcomes of an accepted problem is right at its setting, which fits.
pub fn warm_outcomes_are_right()
    ensures { WarmOutcomesAreRight }
{}

/// Each warm outcome of an accepted problem has the status and the value of the fresh one whenever both answer, and it is a stop only
/// where the fresh one is that stop; want of memory is free.
pub fn warm_outcomes_agree()
    ensures { WarmOutcomesAgree }
{}

/// Settings of an accepted problem have one list of warm outcomes, so many of which are answered from kept columns, until memory runs
/// out at a setting.
pub fn warm_outcomes_are_one()
    ensures { WarmOutcomesAreOne }
{}

/// Whatever the filter finds of an accepted problem at settings is right at its setting, which fits.
pub fn filters_are_right()
    ensures { FiltersAreRight }
{}

/// Settings of an accepted problem have one list of what the filter finds, or of its stops; want of memory is free.
pub fn filters_are_one()
    ensures { FiltersAreOne }
{}

/// Each answer of an accepted problem with marked variables at settings is right at its setting, which fits.
pub fn wholes_are_right()
    ensures { WholesAreRight }
{}

/// Settings have one list of outcomes of a problem with marked variables; want of memory is free.
pub fn wholes_are_one()
    ensures { WholesAreOne }
{}

/// One thing stands against the range of a parameter, and nothing does where it has one.
pub fn range_is_told()
    ensures { RangeIsTold }
{}

/// Whatever is told of a parameter's range at settings is right at its setting, which fits.
pub fn ranges_are_right()
    ensures { RangesAreRight }
{}

/// Settings have one list of what is told of a parameter's range, or of its stops; want of memory is free.
pub fn ranges_are_one()
    ensures { RangesAreOne }
{}

/// Where a setting fits, has its program, comes to the end of the run within the limit and has no multiplier that passes 128 bits, it is
/// answered, warm or not, or memory runs out there.
pub fn outcomes_are_complete()
    ensures { OutcomesAreComplete }
{}
