//! Whether the gap and the slope of a certificate are above 0.
ghost use Rattle.dcx_cert_sections.specs.Checks.{Checked};
ghost use Rattle.dcx_cert_check.specs.SingleChecks.{gap_positive, slope_positive};

use dcx_answer::CertFault;
use dcx_atom::is_at_most;
use dcx_frac::Frac;

/// Whether the gap of an infeasible section is above 0.
pub fn check_gap(gap: Frac) -> Result<(), CertFault>
    ensures { Checked (gap_positive gap) result }
{
    if is_at_most(&gap, &Frac::zero()) {
        return Err(CertFault::Gap { value: gap });
    }
    Ok(())
}

/// Whether the slope of an unbounded section is above 0.
pub fn check_descent(slope: Frac) -> Result<(), CertFault>
    ensures { Checked (slope_positive slope) result }
{
    if is_at_most(&slope, &Frac::zero()) {
        return Err(CertFault::Descent { value: slope });
    }
    Ok(())
}
