//! The checks of what is collected.
ghost use Rattle.std.specs.Prelude.{◌≡◌, ◌<◌, All, length};
ghost use Rattle.dcx_cert_collect.specs.Multipliers.{AreDuals};
ghost use Rattle.dcx_cert_collect.specs.Pass.{HaveWeights};
ghost use Rattle.dcx_cert_sections.specs.Checks.{Checked, in_turn};
ghost use Rattle.dcx_cert_bound.specs.Weights.{weights_at};
ghost use Rattle.dcx_cert_bound.specs.Variables.{variables_check};
ghost use Rattle.dcx_cert_bound.specs.Checks.{total_check, shown_with};

use crate::collecting::collect_all;
use crate::variables::check_variables;
use dcx_answer::{CertFault, Duals};
use dcx_atom::{Array, is_at_most};
use dcx_cert_collect::Collected;
use dcx_cert_sections::Weights;
use dcx_frac::Frac;
use dcx_tree::Problem;
use std::alloc::Global;

/// Whether the total is at least what is stated.
fn check_total(stated: Frac, total: Frac) -> Result<(), CertFault>
    ensures { Checked (total_check stated total) result }
{
    if is_at_most(&stated, &total) {
        Ok(())
    } else {
        Err(CertFault::Bound {
            stated,
            found: total,
        })
    }
}

/// Whether what is collected may reach the variables, and leaves a total of at least what is stated.
fn check_collected(
    alloc: Global,
    problem: &Problem,
    collected: &Collected,
    stated: Frac,
) -> Result<(), CertFault>
    requires { All (λ r. r.node.0 < length problem.now.tree) collected.now.reached }
    ensures { Checked (in_turn (variables_check problem.now collected.now.reached) (total_check stated collected.now.total)) result }
{
    check_variables(alloc, problem, collected.reached.as_slice())?;
    check_total(stated, collected.total)
}

/// The checks behind the values of the nodes without a variable below them.
pub(crate) fn check_with(
    alloc: Global,
    problem: &Problem,
    values: &[Option<Array>],
    duals: &Duals,
    weights: &Weights,
    with_objective: bool,
    stated: Frac,
) -> Result<(), CertFault>
    requires count { length values.now ≡ length problem.now.tree }
    requires duals { AreDuals problem.now duals.now }
    requires nodes { All (λ w. w.node.0 < length problem.now.tree) weights.now }
    requires weights { HaveWeights problem.now.tree values.now (weights_at weights.now) }
    ensures { Checked (shown_with problem.now duals.now weights.now with_objective stated values.now) result }
{
    let collected = collect_all(
        alloc,
        problem,
        values,
        duals.as_slice(),
        weights.as_slice(),
        with_objective,
    )?;
    check_collected(alloc, problem, &collected, stated)
}
