//! The laws above the definitions of `specs/`. There is no code: each clause is a statement about all problems, settings and sets
//! of constraints.
ghost use Rattle.dcx_iis.specs.Laws.{ProgramsTell, FoundIsRight, FoundOrStopped, StopsAreOne, FoundIsOne};

/// A solution of the program of a set is a point that keeps the set, and where multipliers show that the program has none the set
/// is impossible.
pub fn programs_tell()
    ensures { ProgramsTell }
{}

/// Whatever the steps of the filter find over a reduced program of a problem at a setting is right for the problem there.
pub fn found_is_right()
    ensures { FoundIsRight }
{}

/// Where the filter finds something, no step stops and no multiplier passes 128 bits.
pub fn found_or_stopped()
    ensures { FoundOrStopped }
{}

/// The filter stops in one step, with one stop.
pub fn stops_are_one()
    ensures { StopsAreOne }
{}

/// The filter finds one thing at a setting.
pub fn found_is_one()
    ensures { FoundIsOne }
{}
