//! The multipliers of all constraints, where some are left out.
ghost use Rattle.std.specs.Prelude.{◌≡◌, ◌<◌, ◌≤◌, ◌^◌, ◌++◌, List, [], ◌∷◌, length, sum_by, IfOk, IfErr, OnOk};
ghost use Rattle.std.specs.List.{AllZip};
ghost use Rattle.std.specs.Vec.Iter.{into_iter_items};
ghost use Rattle.dcx_atom.specs.declared.array.Array.{Array as ArrayOf};
ghost use Rattle.dcx_right.specs.Filters.{HasShapeOf};
ghost use Rattle.dcx_lp_answer.specs.Multipliers.{passing_from, StopsAt};
ghost use Rattle.dcx_unknowns.specs.Layout.{constraint_rows};
ghost use Rattle.dcx_postsolve.specs.Duals.{all_multipliers, AreDuals};
ghost use Rattle.dcx_iis.specs.Steps.{flagged, kept_of};
ghost use Rattle.dcx_iis.specs.Multipliers.{AreZeros, TakesNext, AreSpread};

use dcx_answer::Duals;
use dcx_atom::Array;
use dcx_frac::{Frac, Fracs};
use dcx_lp_answer::{LpAnswer, MultiplierStop};
use dcx_postsolve::duals_of;
use dcx_tree::Constraint;
use std::alloc::{AllocError, Global};
use std::vec::IntoIter;

/// Zeros in the shape of a constraint.
fn zeros(alloc: Global, constraint: &Constraint) -> Result<Array, AllocError>
    ensures { IfOk result (AreZeros constraint.now) }
{
    let shape = constraint.shape;
    let entries = vec![in alloc; Frac::zero(); shape.size() as usize]?;
    Ok(Array {
        shape,
        entries: Fracs::from_vec(entries),
    })
}

/// The constraints that are kept.
fn constraints_kept(
    alloc: Global,
    constraints: &[Constraint],
    kept: &[bool],
) -> Result<Vec<Constraint>, AllocError>
    requires { length kept.now ≡ length constraints.now }
    ensures { IfOk result (λ v. v.items ≡ kept_of (flagged kept.now) constraints.now) }
{
    let mut members = Vec::new(alloc);
    'constraints: for (index, constraint) in constraints.iter().enumerate() {
        if kept[index] {
            members.push(*constraint)?;
        }
    }
    Ok(members)
}

/// The next of the arrays for a constraint that is kept, and zeros for any other.
fn next_dual(
    alloc: Global,
    constraint: &Constraint,
    kept: bool,
    rest: &mut IntoIter<Array>,
) -> Result<Array, AllocError>
    ensures { IfOk result (TakesNext kept constraint.now (into_iter_items rest.old) (into_iter_items rest.new)) }
{
    if !kept {
        return zeros(alloc, constraint);
    }
    match rest.next() {
        Some(array) => Ok(array),
        None => zeros(alloc, constraint),
    }
}

/// Adds the next of the arrays for a constraint that is kept, and zeros for any other.
fn push_next(
    alloc: Global,
    duals: &mut Vec<Array>,
    constraint: &Constraint,
    kept: bool,
    rest: &mut IntoIter<Array>,
) -> Result<(), AllocError>
    ensures { OnOk result ((x : ArrayOf) × (duals.new.items ≡ duals.old.items ++ x ∷ []) × TakesNext kept constraint.now (into_iter_items rest.old) (into_iter_items rest.new) x) }
{
    let array = next_dual(alloc, constraint, kept, rest)?;
    duals.push(array)?;
    Ok(())
}

/// The arrays of the constraints that are kept, each at its place, and zeros for the others.
fn spread(
    alloc: Global,
    constraints: &[Constraint],
    kept: &[bool],
    arrays: Duals,
) -> Result<Duals, AllocError>
    requires flags { length kept.now ≡ length constraints.now }
    requires shaped { AllZip HasShapeOf (kept_of (flagged kept.now) constraints.now) arrays }
    ensures { IfOk result (AreSpread (flagged kept.now) constraints.now arrays) }
{
    let mut rest = arrays.into_vec().into_iter();
    let mut duals = Vec::with_capacity(alloc, constraints.len())?;
    'constraints: for (index, constraint) in constraints.iter().enumerate() {
        push_next(alloc, &mut duals, constraint, kept[index], &mut rest)?;
    }
    Ok(Duals::from_vec(duals))
}

/// The multipliers of the constraints that are kept, of whose rows the answer is, and zeros for the others.
///
/// `Wide` exactly where one of these multipliers passes 128 bits: the first one.
pub(crate) fn duals_kept(
    alloc: Global,
    constraints: &[Constraint],
    kept: &[bool],
    answer: &LpAnswer,
) -> Result<Duals, MultiplierStop>
    requires flags { length kept.now ≡ length constraints.now }
    requires rows { sum_by constraint_rows (kept_of (flagged kept.now) constraints.now) ≤ length answer.now.rows }
    requires few { length answer.now.rows < 2 ^ 32 }
    ensures made { IfOk result (λ d. (ds : List ArrayOf) × AreDuals answer.now.status (kept_of (flagged kept.now) constraints.now) answer.now.rows ds
        × AreSpread (flagged kept.now) constraints.now ds d) }
    ensures stops { IfErr result (λ e. StopsAt e (passing_from 0 (all_multipliers answer.now.status (kept_of (flagged kept.now) constraints.now) answer.now.rows))) }
{
    let members = constraints_kept(alloc, constraints, kept)?;
    let formed = duals_of(alloc, members.as_slice(), answer)?;
    Ok(spread(alloc, constraints, kept, formed)?)
}
