//! Whether the minimized objective at a point is as a certificate states.
ghost use Rattle.std.specs.Prelude.{◌≡◌, ◌∷◌, [], IfOk, OnOk};
ghost use Rattle.dcx_frac.specs.Frac.{value};
ghost use Rattle.dcx_atom.specs.Arrays.{number_at};
ghost use Rattle.dcx_convex.specs.Problems.{minimized};
ghost use Rattle.dcx_tree.specs.Meaning.{sense_of, setting_of, point_of, objective_at};
ghost use Rattle.dcx_cert_sections.specs.Checks.{Checked};
ghost use Rattle.dcx_cert_values.specs.Forming.{GivesParameters, GivesVariables, forming};
ghost use Rattle.dcx_cert_values.specs.Tables.{AreKeptValues, AreKeptBelow, StaysKept};
ghost use Rattle.dcx_cert_check.specs.SingleChecks.{value_is, start_bounded};

use crate::kept::kept;
use crate::numbers::entry_of;
use dcx_answer::CertFault;
use dcx_atom::{Array, is_at_most, is_equal};
use dcx_cert_values::Values;
use dcx_frac::Frac;
use dcx_point::{Point, Setting};
use dcx_tree::{Problem, Sense};
use std::alloc::Global;

/// Whether the minimized objective at a point is the stated value. `Value` tells both where it isn't.
pub fn check_value(
    alloc: Global,
    problem: &Problem,
    point: &Point,
    setting: &Setting,
    stated: Frac,
    values: &mut Values,
) -> Result<(), CertFault>
    requires parameters { GivesParameters problem.now setting.now }
    requires variables { GivesVariables problem.now point.now }
    requires kept { AreKeptValues problem.now setting.now point.now values.old }
    ensures checked { Checked (value_is problem.now setting.now point.now stated) result }
    ensures kept { AreKeptValues problem.now setting.now point.now values.new }
{
    let found = objective(alloc, problem, point, setting, values)?;
    if is_equal(&found, &stated) {
        return Ok(());
    }
    Err(CertFault::Value { stated, found })
}

/// Whether the minimized objective at the start of a ray is at most the stated bound. `Bound` tells both where it isn't. Where it is, all
/// values below the objective are kept.
pub fn check_start_bound(
    alloc: Global,
    problem: &Problem,
    point: &Point,
    setting: &Setting,
    bound: Frac,
    values: &mut Values,
) -> Result<(), CertFault>
    requires parameters { GivesParameters problem.now setting.now }
    requires variables { GivesVariables problem.now point.now }
    requires kept { AreKeptValues problem.now setting.now point.now values.old }
    ensures checked { Checked (start_bounded problem.now setting.now point.now bound) result }
    ensures kept { AreKeptValues problem.now setting.now point.now values.new }
    ensures below { OnOk result (AreKeptBelow problem.now (problem.now.objective.0 ∷ []) values.new) }
    ensures stays { StaysKept values.old values.new }
{
    let found = objective(alloc, problem, point, setting, values)?;
    if is_at_most(&found, &bound) {
        return Ok(());
    }
    Err(CertFault::Bound {
        stated: bound,
        found,
    })
}

/// The minimized objective at a point.
fn objective(
    alloc: Global,
    problem: &Problem,
    point: &Point,
    setting: &Setting,
    values: &mut Values,
) -> Result<Frac, CertFault>
    requires parameters { GivesParameters problem.now setting.now }
    requires variables { GivesVariables problem.now point.now }
    requires kept { AreKeptValues problem.now setting.now point.now values.old }
    ensures checked { Checked (forming problem.now setting.now point.now (problem.now.objective.0 ∷ [])) result }
    ensures number { IfOk result (λ f. value f ≡ objective_at problem.now (setting_of problem.now setting.now) (point_of problem.now point.now)) }
    ensures kept { AreKeptValues problem.now setting.now point.now values.new }
    ensures below { OnOk result (AreKeptBelow problem.now (problem.now.objective.0 ∷ []) values.new) }
    ensures stays { StaysKept values.old values.new }
{
    values.form(alloc, problem, &[problem.objective], point, setting)?;
    Ok(minimized(problem.sense, kept(values, problem.objective)))
}

/// The first number of an array, negated where it is to be maximized.
fn minimized(sense: Sense, array: &Array) -> Frac
    ensures { value result ≡ minimized (sense_of sense) (number_at array.now.entries 0) }
{
    let number = entry_of(array, 0);
    match sense {
        Sense::Minimize => number,
        Sense::Maximize => number.neg(),
    }
}
