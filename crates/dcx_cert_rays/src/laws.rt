//! Laws above the definitions of `specs/`. There is no code: each clause is a statement about all rays.
ghost use Rattle.dcx_cert_rays.specs.Laws.{RayChecksAreSettled, PassedIsUnbounded};

/// No check of a ray both passes and fails, and one that fails has one fault.
pub fn ray_checks_are_settled()
    ensures { RayChecksAreSettled }
{}

/// From a feasible point at which the objective is at most the bound, an accepted problem is unbounded along a ray in the domain that
/// passes its checks.
pub fn passed_is_unbounded()
    ensures { PassedIsUnbounded }
{}
