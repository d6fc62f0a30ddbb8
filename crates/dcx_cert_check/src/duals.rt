//! Whether the multipliers of inequalities are at least 0.
ghost use Rattle.std.specs.Prelude.{◌≡◌, ◌<◌, ◌^◌, length, slice_get};
ghost use Rattle.std.specs.Option.{option_copied};
ghost use Rattle.dcx_frac.specs.Frac.{value};
ghost use Rattle.dcx_cert_sections.specs.Checks.{Checked};
ghost use Rattle.dcx_cert_check.specs.Demands.{each_in};
ghost use Rattle.dcx_cert_check.specs.Numbers.{number_if};
ghost use Rattle.dcx_cert_check.specs.SingleChecks.{multiplier_signed, entries_signed, multipliers_signed, duals_signed};

use crate::numbers::number_in;
use dcx_answer::{CertFault, Duals};
use dcx_atom::{Array, is_at_most};
use dcx_frac::Frac;
use dcx_tree::{Constraint, Kind, Problem};

/// Whether the multipliers of inequalities are at least 0. `DualSign` tells the first constraint, and its first entry, whose
/// multiplier isn't. Multipliers that aren't given count as 0.
pub fn check_dual_signs(problem: &Problem, duals: &Duals) -> Result<(), CertFault>
    ensures { Checked (duals_signed problem.now duals.now) result }
{
    check_each(problem.constraints.as_slice(), duals.as_slice())
}

/// Whether the multipliers of some constraints have their signs.
fn check_each(constraints: &[Constraint], duals: &[Array]) -> Result<(), CertFault>
    requires { length constraints.now < 2 ^ 32 }
    ensures { Checked (each_in constraints.now (multipliers_signed duals.now)) result }
{
    'constraints: for k in 0..constraints.len() {
        check_multipliers(&constraints[k], k as u32, array_at(duals, k))?;
    }
    Ok(())
}

/// Array `k` of a list, where it has so many.
fn array_at(arrays: &[Array], k: usize) -> Option<&Array>
    ensures { option_copied result ≡ slice_get arrays.now k }
{
    if k < arrays.len() {
        return Some(&arrays[k]);
    }
    None
}

/// Whether the multipliers of a constraint have their signs.
fn check_multipliers(
    constraint: &Constraint,
    number: u32,
    multipliers: Option<&Array>,
) -> Result<(), CertFault>
    ensures { Checked (entries_signed number constraint.now (number_if (option_copied multipliers.entry))) result }
{
    'entries: for entry in 0..constraint.shape.size() {
        check_multiplier(
            constraint.kind,
            number,
            entry,
            number_in(multipliers, entry),
        )?;
    }
    Ok(())
}

/// Whether a multiplier has its sign.
fn check_multiplier(kind: Kind, number: u32, entry: u32, multiplier: Frac) -> Result<(), CertFault>
    ensures { Checked (multiplier_signed kind number entry (value multiplier)) result }
{
    match kind {
        Kind::Equal => return Ok(()),
        Kind::AtMost => {}
    }
    if is_at_most(&Frac::zero(), &multiplier) {
        return Ok(());
    }
    Err(CertFault::DualSign {
        constraint: number,
        entry,
        value: multiplier,
    })
}
