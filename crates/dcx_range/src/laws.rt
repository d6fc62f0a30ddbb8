//! The laws above the definitions of `specs/`. There is no code: each clause is a statement about all problems.
ghost use Rattle.dcx_range.specs.Parameters.{TellsOnce};
ghost use Rattle.dcx_range.specs.Laws.{RangesAreRight, RangesAreOne};

/// One thing is told of whether a parameter has a range.
pub fn tells_once()
    ensures { TellsOnce }
{}

/// Whatever a run tells of a parameter that has a range is true of the problem at the setting.
pub fn ranges_are_right()
    ensures { RangesAreRight }
{}

/// A parameter has one range at a setting under a limit, or one stop, want of memory aside.
pub fn ranges_are_one()
    ensures { RangesAreOne }
{}
