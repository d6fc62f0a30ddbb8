//! The bound checks of a certificate.
ghost use Rattle.std.specs.Prelude.{◌≡◌, [], length};
ghost use Rattle.dcx_lines.specs.Shown.{constraints_of};
ghost use Rattle.dcx_cert_sections.specs.Shown.{atoms_of};
ghost use Rattle.dcx_cert_outline.specs.Drawn.{AreFixed, problem_outline};
ghost use Rattle.dcx_cert_sections.specs.Checks.{Checked};
ghost use Rattle.dcx_cert_values.specs.Forming.{GivesParameters};
ghost use Rattle.dcx_cert_values.specs.Tables.{AreKeptValues, AreOnlyFixed};
ghost use Rattle.dcx_cert_bound.specs.Checks.{bound_checks};

use crate::checking::check_with;
use dcx_answer::{CertFault, Duals};
use dcx_cert_sections::Weights;
use dcx_cert_values::Values;
use dcx_frac::Frac;
use dcx_point::Setting;
use dcx_tree::Problem;
use std::alloc::Global;

/// Whether the multipliers and the weights of a certificate show that the minimized objective, or the sum of multipliers times the
/// constraints alone, is at least what is stated, at every point of the domain. `fixed` marks the nodes without a variable below
/// them. Of these alone `values` may keep some; the others are formed.
///
/// The faults are those of the checks, the first one: `Wide` or a zero divisor where a value isn't formed, `Wide` or `Slope` where the
/// coefficients aren't collected, `Variable` or `Wide` at the first entry of the first variable that something reaches which may not,
/// and `Bound` where the total is below what is stated.
pub fn check_bound(
    alloc: Global,
    problem: &Problem,
    setting: &Setting,
    fixed: &[bool],
    duals: &Duals,
    weights: &Weights,
    with_objective: bool,
    stated: Frac,
    values: &mut Values,
) -> Result<(), CertFault>
    requires given { GivesParameters problem.now setting.now }
    requires fixed { AreFixed problem.now fixed.now (length problem.now.tree) }
    requires duals { constraints_of duals.now ≡ (problem_outline problem.now).constraints }
    requires weights { atoms_of weights.now ≡ (problem_outline problem.now).atoms }
    requires values { AreKeptValues problem.now setting.now [] values.old }
    requires only { AreOnlyFixed problem.now values.old }
    ensures { Checked (bound_checks problem.now setting.now duals.now weights.now with_objective stated) result }
{
    values.form_fixed(alloc, problem, fixed, setting)?;
    check_with(
        alloc,
        problem,
        values.as_slice(),
        duals,
        weights,
        with_objective,
        stated,
    )
}
