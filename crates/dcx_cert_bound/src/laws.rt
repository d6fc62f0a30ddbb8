//! The laws above the definitions of `specs/`. There is no code: each clause is a statement about all certificates.
ghost use Rattle.dcx_cert_bound.specs.Laws.{BoundsAreSettled, BoundsShowAnswers};

/// No bound check both passes and fails, and one that fails has one fault.
pub fn bounds_are_settled()
    ensures { BoundsAreSettled }
{}

/// Where the bound checks of an accepted problem pass with the objective, a feasible point of the stated value is optimal; where they
/// pass without it for a gap above 0, no point is feasible.
pub fn bounds_show_answers()
    ensures { BoundsShowAnswers }
{}
