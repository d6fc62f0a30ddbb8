//! The laws above the definitions of `specs/`. There is no code: each clause is a statement about all problems.
ghost use Rattle.dcx_cert_values.specs.Laws.{AreSettledHere, DivisorsAreNotZero};

/// No check of forming both passes and fails, and one that fails has one fault.
pub fn checks_are_settled()
    ensures { AreSettledHere }
{}

/// Where the divisors of an accepted problem pass their check, nothing is divided by 0, at any point. A setting that also fits the
/// parameters is a fitting one.
pub fn divisors_are_not_zero()
    ensures { DivisorsAreNotZero }
{}
