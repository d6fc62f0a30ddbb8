//! The checks of a ray.
ghost use Rattle.std.specs.Prelude.{◌≡◌, ◌<◌, ℕ, All, Some, length, slice_get, OnOk};
ghost use Rattle.dcx_frac.specs.Frac.{value};
ghost use Rattle.dcx_shape.specs.Shape.{sides_of};
ghost use Rattle.dcx_call.specs.Values.{HasArray};
ghost use Rattle.dcx_tree.specs.Meaning.{IsAccepted, IsFitting};
ghost use Rattle.dcx_cert_outline.specs.Drawn.{AreFixed};
ghost use Rattle.dcx_cert_sections.specs.Checks.{Checked};
ghost use Rattle.dcx_cert_rays.specs.Steepness.{IsGiven, IsKnown, AreKept, AreFixedValues};
ghost use Rattle.dcx_cert_rays.specs.Rays.{sides_hold, constraint_check, constraints_check, objective_steepness, value_check, ray_checks};

use crate::along::Along;
use crate::table::{form_below, no_arrays, steepness};
use dcx_answer::CertFault;
use dcx_atom::{Array, is_at_most};
use dcx_frac::Frac;
use dcx_point::{Point, Setting};
use dcx_tree::{Constraint, NodeId, Problem, Sense};
use std::alloc::Global;

/// Whether both sides of a constraint are as steep as it asks, entry by entry.
fn compare(
    along: &Along,
    arrays: &[Option<Array>],
    number: u32,
    constraint: &Constraint,
) -> Result<(), CertFault>
    requires kept { AreKept along.now.problem.now along.now.setting.now along.now.ray.now arrays.now }
    requires left_there { constraint.now.left.0 < length along.now.problem.now.tree }
    requires right_there { constraint.now.right.0 < length along.now.problem.now.tree }
    requires left { IsKnown along.now.problem.now arrays.now constraint.now.left.0 }
    requires right { IsKnown along.now.problem.now arrays.now constraint.now.right.0 }
    ensures { Checked (sides_hold along.now.problem.now along.now.setting.now along.now.ray.now number constraint.now) result }
{
    for entry in 0..constraint.shape.size() {
        let left = steepness(along, arrays, constraint.left, entry);
        let right = steepness(along, arrays, constraint.right, entry);
        if !constraint.kind.holds(&left, &right) {
            return Err(CertFault::RayConstraint {
                constraint: number,
                entry,
                left,
                right,
            });
        }
    }
    Ok(())
}

/// Forms the steepness of both sides of a constraint, and compares them.
fn check_constraint(
    alloc: Global,
    along: &Along,
    arrays: &mut Vec<Option<Array>>,
    number: u32,
) -> Result<(), CertFault>
    requires given { IsGiven along.now.problem.now along.now.setting.now along.now.fixed.now along.now.values.now along.now.ray.now }
    requires kept { AreKept along.now.problem.now along.now.setting.now along.now.ray.now arrays.old.items }
    requires there { number < length along.now.problem.now.constraints }
    ensures kept { OnOk result (AreKept along.now.problem.now along.now.setting.now along.now.ray.now arrays.new.items) }
    ensures checked { Checked (constraint_check along.now.problem.now along.now.setting.now along.now.ray.now number (slice_get along.now.problem.now.constraints number)) result }
{
    let constraint = &along.problem.constraints.as_slice()[number as usize];
    let sides = [constraint.left, constraint.right];
    form_below(alloc, along, arrays, &sides)?;
    compare(along, arrays, number, constraint)
}

/// Checks each constraint in order.
fn check_constraints(
    alloc: Global,
    along: &Along,
    arrays: &mut Vec<Option<Array>>,
) -> Result<(), CertFault>
    requires given { IsGiven along.now.problem.now along.now.setting.now along.now.fixed.now along.now.values.now along.now.ray.now }
    requires kept { AreKept along.now.problem.now along.now.setting.now along.now.ray.now arrays.old.items }
    ensures kept { OnOk result (AreKept along.now.problem.now along.now.setting.now along.now.ray.now arrays.new.items) }
    ensures checked { Checked (constraints_check along.now.problem.now along.now.setting.now along.now.ray.now) result }
{
    for number in 0..along.problem.constraints.as_slice().len() as u32 {
        check_constraint(alloc, along, arrays, number)?;
    }
    Ok(())
}

/// The steepness of the objective, negated where it is to be maximized.
fn objective(along: &Along, arrays: &[Option<Array>]) -> Frac
    requires kept { AreKept along.now.problem.now along.now.setting.now along.now.ray.now arrays.now }
    requires known { IsKnown along.now.problem.now arrays.now along.now.problem.now.objective.0 }
    ensures { value result ≡ objective_steepness along.now.problem.now along.now.setting.now along.now.ray.now }
{
    let found = steepness(along, arrays, along.problem.objective, 0);
    match along.problem.sense {
        Sense::Minimize => found,
        Sense::Maximize => found.neg(),
    }
}

/// Checks that the minimized objective falls by the slope.
fn check_value(
    alloc: Global,
    along: &Along,
    arrays: &mut Vec<Option<Array>>,
    slope: Frac,
) -> Result<(), CertFault>
    requires given { IsGiven along.now.problem.now along.now.setting.now along.now.fixed.now along.now.values.now along.now.ray.now }
    requires kept { AreKept along.now.problem.now along.now.setting.now along.now.ray.now arrays.old.items }
    ensures { Checked (value_check along.now.problem.now along.now.setting.now along.now.ray.now slope) result }
{
    let roots = [along.problem.objective];
    form_below(alloc, along, arrays, &roots)?;
    let found = objective(along, arrays);
    let stated = slope.neg();
    if is_at_most(&found, &stated) {
        Ok(())
    } else {
        Err(CertFault::RayValue { stated, found })
    }
}

/// Checks a ray: that along it each constraint is kept, and that the minimized objective falls by at least the slope for each step.
///
/// `fixed` marks the nodes that have no variable below them, and `values` has their values.
///
/// `RayConstraint` at the first entry of the first constraint whose left side is steeper than its right one, or, where both are to be
/// equal, not as steep. `RayValue` where the minimized objective is steeper than the negated slope. `Wide` where an operation passes
/// 128 bits before one of these is met.
pub fn check_ray(
    alloc: Global,
    problem: &Problem,
    setting: &Setting,
    fixed: &[bool],
    values: &[Option<Array>],
    ray: &Point,
    slope: Frac,
) -> Result<(), CertFault>
    requires accepted { IsAccepted problem.now }
    requires fitting { IsFitting problem.now setting.now }
    requires shaped { All (λ v. HasArray ray.now v.name (sides_of v.shape)) problem.now.variables }
    requires fixed { AreFixed problem.now fixed.now (length problem.now.tree) }
    requires values { AreFixedValues problem.now setting.now values.now }
    ensures { Checked (ray_checks problem.now setting.now ray.now slope) result }
{
    let along = Along {
        problem,
        setting,
        fixed,
        values,
        ray,
    };
    let mut arrays = no_arrays(alloc, problem.tree.nodes())?;
    check_constraints(alloc, &along, &mut arrays)?;
    check_value(alloc, &along, &mut arrays, slope)
}
