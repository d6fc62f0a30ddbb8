//! The checks of a certificate, one after the other.
ghost use Rattle.std.specs.Prelude.{◌≡◌, ℕ, [], ◌∷◌, length, OnOk, Some, slice_get};
ghost use Rattle.dcx_tree.specs.Meaning.{IsAccepted, IsFitting};
ghost use Rattle.dcx_tree.specs.declared.constraint.Constraint.{Constraint as Row};
ghost use Rattle.dcx_lines.specs.Shown.{constraints_of};
ghost use Rattle.dcx_cert_sections.specs.Shown.{IsCertOf, atoms_of};
ghost use Rattle.dcx_cert_outline.specs.Drawn.{AreFixed, problem_outline};
ghost use Rattle.dcx_cert_sections.specs.Checks.{Checked};
ghost use Rattle.dcx_cert_values.specs.Forming.{GivesParameters, GivesVariables};
ghost use Rattle.dcx_cert_values.specs.Tables.{AreKeptValues, AreKeptBelow, AreOnlyFixed};
ghost use Rattle.dcx_cert_check.specs.Checks.{setting_checks, point_checks, optimal_checks, infeasible_checks, unbounded_checks, checks_of};
ghost use Rattle.dcx_cert_check.specs.Shown.{IsShown};

use crate::constraints::check_constraints;
use crate::domain::{check_domain, check_ray_domain};
use crate::duals::check_dual_signs;
use crate::fit::check_fit;
use crate::objective::{check_start_bound, check_value};
use crate::parameters::check_params;
use crate::signs::{check_descent, check_gap};
use dcx_answer::{CertFault, Duals};
use dcx_cert_bound::check_bound;
use dcx_cert_outline::fixed_nodes;
use dcx_cert_rays::check_ray;
use dcx_cert_sections::{Cert, Weights};
use dcx_cert_values::Values;
use dcx_frac::Frac;
use dcx_point::{Point, Setting};
use dcx_tree::Problem;
use std::alloc::Global;

/// Checks that the setting fits, and that it is the one whose values are told. What is formed is kept.
fn check_setting(
    alloc: Global,
    problem: &Problem,
    setting: &Setting,
    params: &Option<Setting>,
    values: &mut Values,
) -> Result<(), CertFault>
    requires accepted { IsAccepted problem.now }
    requires values { AreKeptValues problem.now setting.now [] values.old }
    requires only { AreOnlyFixed problem.now values.old }
    ensures checked { Checked (setting_checks problem.now setting.now params.now) result }
    ensures parameters { OnOk result (GivesParameters problem.now setting.now) }
    ensures values { AreKeptValues problem.now setting.now [] values.new }
    ensures only { AreOnlyFixed problem.now values.new }
{
    check_fit(alloc, problem, setting, values)?;
    check_params(problem, params, setting)
}

/// Checks that the point is feasible.
fn check_point(
    alloc: Global,
    problem: &Problem,
    point: &Point,
    setting: &Setting,
    values: &mut Values,
) -> Result<(), CertFault>
    requires parameters { GivesParameters problem.now setting.now }
    requires variables { GivesVariables problem.now point.now }
    requires kept { AreKeptValues problem.now setting.now point.now values.old }
    ensures checked { Checked (point_checks problem.now setting.now point.now) result }
    ensures kept { AreKeptValues problem.now setting.now point.now values.new }
    ensures below { OnOk result ((k : ℕ) (c : Row) → slice_get problem.now.constraints k ≡ Some c → AreKeptBelow problem.now (c.left.0 ∷ c.right.0 ∷ []) values.new) }
{
    check_domain(problem, point)?;
    check_constraints(alloc, problem, point, setting, values)
}

/// Checks that a point is feasible and has the stated value, and that multipliers and weights bound the minimized objective by it.
fn check_optimal(
    alloc: Global,
    problem: &Problem,
    fixed: &[bool],
    setting: &Setting,
    stated: Frac,
    point: &Point,
    duals: &Duals,
    weights: &Weights,
    values: &mut Values,
) -> Result<(), CertFault>
    requires fixed { AreFixed problem.now fixed.now (length problem.now.tree) }
    requires parameters { GivesParameters problem.now setting.now }
    requires variables { GivesVariables problem.now point.now }
    requires constraints { constraints_of duals.now ≡ (problem_outline problem.now).constraints }
    requires atoms { atoms_of weights.now ≡ (problem_outline problem.now).atoms }
    requires values { AreKeptValues problem.now setting.now [] values.old }
    requires only { AreOnlyFixed problem.now values.old }
    ensures { Checked (optimal_checks problem.now setting.now stated point.now duals.now weights.now) result }
{
    check_point(alloc, problem, point, setting, values)?;
    check_value(alloc, problem, point, setting, stated, values)?;
    check_dual_signs(problem, duals)?;
    values.keep(fixed);
    check_bound(
        alloc, problem, setting, fixed, duals, weights, true, stated, values,
    )
}

/// Checks that multipliers and weights leave a gap above 0 at every point of the domain.
fn check_infeasible(
    alloc: Global,
    problem: &Problem,
    fixed: &[bool],
    setting: &Setting,
    duals: &Duals,
    gap: Frac,
    weights: &Weights,
    values: &mut Values,
) -> Result<(), CertFault>
    requires fixed { AreFixed problem.now fixed.now (length problem.now.tree) }
    requires parameters { GivesParameters problem.now setting.now }
    requires constraints { constraints_of duals.now ≡ (problem_outline problem.now).constraints }
    requires atoms { atoms_of weights.now ≡ (problem_outline problem.now).atoms }
    requires values { AreKeptValues problem.now setting.now [] values.old }
    requires only { AreOnlyFixed problem.now values.old }
    ensures { Checked (infeasible_checks problem.now setting.now duals.now gap weights.now) result }
{
    check_dual_signs(problem, duals)?;
    check_gap(gap)?;
    check_bound(
        alloc, problem, setting, fixed, duals, weights, false, gap, values,
    )
}

/// Checks that from a feasible point, where the minimized objective is at most the bound, it falls by the slope along a ray that leaves
/// neither the domain nor a constraint.
fn check_unbounded(
    alloc: Global,
    problem: &Problem,
    fixed: &[bool],
    setting: &Setting,
    point: &Point,
    ray: &Point,
    bound: Frac,
    slope: Frac,
    values: &mut Values,
) -> Result<(), CertFault>
    requires fixed { AreFixed problem.now fixed.now (length problem.now.tree) }
    requires accepted { IsAccepted problem.now }
    requires fitting { IsFitting problem.now setting.now }
    requires parameters { GivesParameters problem.now setting.now }
    requires variables { GivesVariables problem.now point.now }
    requires ray { GivesVariables problem.now ray.now }
    requires values { AreKeptValues problem.now setting.now [] values.old }
    requires only { AreOnlyFixed problem.now values.old }
    ensures { Checked (unbounded_checks problem.now setting.now point.now ray.now bound slope) result }
{
    check_point(alloc, problem, point, setting, values)?;
    check_start_bound(alloc, problem, point, setting, bound, values)?;
    check_descent(slope)?;
    check_ray_domain(problem, ray)?;
    check_ray(
        alloc,
        problem,
        setting,
        fixed,
        values.as_slice(),
        ray,
        slope,
    )
}

/// Carries out the checks of a certificate. The value of a node is formed once, where it is first needed.
fn check(
    alloc: Global,
    problem: &Problem,
    fixed: &[bool],
    setting: &Setting,
    cert: &Cert,
    values: &mut Values,
) -> Result<(), CertFault>
    requires accepted { IsAccepted problem.now }
    requires fixed { AreFixed problem.now fixed.now (length problem.now.tree) }
    requires cert { IsCertOf (problem_outline problem.now) cert.now }
    requires values { AreKeptValues problem.now setting.now [] values.old }
    requires only { AreOnlyFixed problem.now values.old }
    ensures { Checked (checks_of problem.now setting.now cert.now) result }
{
    match cert {
        Cert::Optimal {
            value,
            point,
            duals,
            weights,
            params,
        } => {
            check_setting(alloc, problem, setting, params, values)?;
            check_optimal(
                alloc, problem, fixed, setting, *value, point, duals, weights, values,
            )
        }
        Cert::Infeasible {
            duals,
            gap,
            weights,
            params,
        } => {
            check_setting(alloc, problem, setting, params, values)?;
            check_infeasible(alloc, problem, fixed, setting, duals, *gap, weights, values)
        }
        Cert::Unbounded {
            point,
            ray,
            bound,
            slope,
            params,
        } => {
            check_setting(alloc, problem, setting, params, values)?;
            check_unbounded(
                alloc, problem, fixed, setting, point, ray, *bound, *slope, values,
            )
        }
    }
}

/// Checks whether a certificate shows the answer to an accepted problem at a setting. It has the names, the shapes, the counts and the
/// order of the problem.
///
/// The checks go in the order of the faults, and an `Err` is the fault of the first that fails: `Fit` where the setting doesn't fit,
/// `Setting` where another one's values are told; `Domain`, `Constraint` and `Value` at the point; `DualSign` and `Gap`; `Slope`,
/// `Variable` and `Bound` of what multipliers and weights show; or, along a ray, `Bound`, `Descent`, `RayDomain`, `RayConstraint` and
/// `RayValue`. `Wide` where an operation passes 128 bits before one of them is met, and `Memory` where there is none.
pub fn certify(
    alloc: Global,
    problem: &Problem,
    setting: &Setting,
    cert: &Cert,
) -> Result<(), CertFault>
    requires accepted { IsAccepted problem.now }
    requires cert { IsCertOf (problem_outline problem.now) cert.now }
    ensures checked { Checked (checks_of problem.now setting.now cert.now) result }
    ensures shown { OnOk result (IsShown problem.now setting.now cert.now) }
{
    let fixed = fixed_nodes(alloc, problem)?;
    certify_with(alloc, problem, &fixed, setting, cert)
}

/// The same, where `fixed` marks the nodes without a variable below them: they are those of the problem, whatever the setting.
pub fn certify_with(
    alloc: Global,
    problem: &Problem,
    fixed: &[bool],
    setting: &Setting,
    cert: &Cert,
) -> Result<(), CertFault>
    requires accepted { IsAccepted problem.now }
    requires fixed { AreFixed problem.now fixed.now (length problem.now.tree) }
    requires cert { IsCertOf (problem_outline problem.now) cert.now }
    ensures checked { Checked (checks_of problem.now setting.now cert.now) result }
    ensures shown { OnOk result (IsShown problem.now setting.now cert.now) }
{
    let mut values = Values::new(alloc, problem)?;
    check(alloc, problem, fixed, setting, cert, &mut values)
}
