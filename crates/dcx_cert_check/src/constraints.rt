//! Whether each constraint holds at a point.
ghost use Rattle.std.specs.Prelude.{◌≡◌, ℕ, ◌∷◌, [], length, slice_get, Some, OnOk};
ghost use Rattle.dcx_shape.specs.Shape.{sides_of};
ghost use Rattle.dcx_atom.specs.Arrays.{number_at};
ghost use Rattle.dcx_cert_sections.specs.Checks.{Checked};
ghost use Rattle.dcx_cert_values.specs.Forming.{GivesParameters, GivesVariables};
ghost use Rattle.dcx_cert_values.specs.Tables.{AreKeptValues, AreKeptBelow, StaysKept};
ghost use Rattle.dcx_tree.specs.declared.constraint.Constraint.{Constraint as Row};
ghost use Rattle.dcx_cert_check.specs.SingleChecks.{numbers_hold, constraint_holds, constraints_hold};

use crate::kept::kept;
use dcx_answer::CertFault;
use dcx_atom::Array;
use dcx_cert_values::{Values, first_broken};
use dcx_point::{Point, Setting};
use dcx_tree::{Constraint, Kind, Problem};
use std::alloc::Global;

/// Whether each constraint holds at a point. The values of one constraint after the other are formed and compared:
/// `Constraint` tells the first constraint, and its first entry, that doesn't hold. Where each holds, all values below both sides are
/// kept.
pub fn check_constraints(
    alloc: Global,
    problem: &Problem,
    point: &Point,
    setting: &Setting,
    values: &mut Values,
) -> Result<(), CertFault>
    requires parameters { GivesParameters problem.now setting.now }
    requires variables { GivesVariables problem.now point.now }
    requires kept { AreKeptValues problem.now setting.now point.now values.old }
    ensures checked { Checked (constraints_hold problem.now setting.now point.now) result }
    ensures kept { AreKeptValues problem.now setting.now point.now values.new }
    ensures below { OnOk result ((k : ℕ) (c : Row) → slice_get problem.now.constraints k ≡ Some c → AreKeptBelow problem.now (c.left.0 ∷ c.right.0 ∷ []) values.new) }
{
    let constraints = problem.constraints.as_slice();
    'constraints: for k in 0..constraints.len() {
        check_constraint(
            alloc,
            problem,
            &constraints[k],
            k as u32,
            point,
            setting,
            values,
        )?;
    }
    Ok(())
}

/// Whether a constraint holds at a point.
fn check_constraint(
    alloc: Global,
    problem: &Problem,
    constraint: &Constraint,
    number: u32,
    point: &Point,
    setting: &Setting,
    values: &mut Values,
) -> Result<(), CertFault>
    requires there { slice_get problem.now.constraints number ≡ Some constraint.now }
    requires parameters { GivesParameters problem.now setting.now }
    requires variables { GivesVariables problem.now point.now }
    requires kept { AreKeptValues problem.now setting.now point.now values.old }
    ensures checked { Checked (constraint_holds problem.now setting.now point.now number constraint.now) result }
    ensures kept { AreKeptValues problem.now setting.now point.now values.new }
    ensures below { OnOk result (AreKeptBelow problem.now (constraint.now.left.0 ∷ constraint.now.right.0 ∷ []) values.new) }
    ensures stays { StaysKept values.old values.new }
{
    let roots = [constraint.left, constraint.right];
    values.form(alloc, problem, &roots, point, setting)?;
    let left = kept(values, constraint.left);
    let right = kept(values, constraint.right);
    compare(constraint.kind, number, left, right)
}

/// Whether two arrays of one size stand to each other as a constraint asks.
fn compare(kind: Kind, number: u32, left: &Array, right: &Array) -> Result<(), CertFault>
    requires { sides_of left.now.shape ≡ sides_of right.now.shape }
    ensures { Checked (numbers_hold kind (length left.now.entries) (number_at left.now.entries) (number_at right.now.entries) number) result }
{
    match first_broken(kind, left, right) {
        None => Ok(()),
        Some(broken) => Err(CertFault::Constraint {
            constraint: number,
            entry: broken.entry,
            left: broken.left,
            right: broken.right,
        }),
    }
}
