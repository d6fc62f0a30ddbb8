//! The multipliers of constraints from what is kept of their rows.
ghost use Rattle.std.specs.Prelude.{◌≡◌, ◌+◌, ◌<◌, ◌≤◌, ◌^◌, [], ◌∷◌, ◌++◌, drop, length, sum_by, IfOk, IfErr, OnOk};
ghost use Rattle.dcx_lp_answer.specs.Multipliers.{passing_from, StopsAt};
ghost use Rattle.dcx_unknowns.specs.Layout.{constraint_rows};
ghost use Rattle.dcx_postsolve.specs.Duals.{row_kind, row_multipliers, all_multipliers, IsDual, AreDuals, AddsDual};

use dcx_answer::Duals;
use dcx_atom::Array;
use dcx_linear::RowKind;
use dcx_lp_answer::{LpAnswer, MultiplierStop, multipliers};
use dcx_tree::{Constraint, Kind};
use std::alloc::Global;

/// What the rows of a constraint of this kind say of their forms.
pub fn row_kind(kind: Kind) -> RowKind
    ensures { result ≡ row_kind kind }
{
    match kind {
        Kind::AtMost => RowKind::AtMost,
        Kind::Equal => RowKind::Equal,
    }
}

/// The multipliers of a constraint whose rows begin with row `first`.
fn dual_of(
    alloc: Global,
    constraint: &Constraint,
    first: u32,
    answer: &LpAnswer,
) -> Result<Array, MultiplierStop>
    requires rows { first + constraint_rows constraint.now ≤ length answer.now.rows }
    requires few { length answer.now.rows < 2 ^ 32 }
    ensures made { IfOk result (λ x. IsDual answer.now.status constraint.now (drop first answer.now.rows) x) }
    ensures stops { IfErr result (λ e. StopsAt e (passing_from first (row_multipliers answer.now.status constraint.now (drop first answer.now.rows)))) }
{
    let next = first + constraint.shape.size();
    let entries = multipliers(alloc, answer, row_kind(constraint.kind), first, next)?;
    Ok(Array {
        shape: constraint.shape,
        entries,
    })
}

/// Adds the multipliers of a constraint whose rows begin with row `first`.
fn push_dual(
    alloc: Global,
    duals: &mut Vec<Array>,
    constraint: &Constraint,
    first: u32,
    answer: &LpAnswer,
) -> Result<(), MultiplierStop>
    requires rows { first + constraint_rows constraint.now ≤ length answer.now.rows }
    requires few { length answer.now.rows < 2 ^ 32 }
    ensures made { OnOk result (AddsDual answer.now.status constraint.now (drop first answer.now.rows) duals.old.items duals.new.items) }
    ensures stops { IfErr result (λ e. StopsAt e (passing_from first (row_multipliers answer.now.status constraint.now (drop first answer.now.rows)))) }
{
    let array = dual_of(alloc, constraint, first, answer)?;
    duals.push(array)?;
    Ok(())
}

/// For each constraint an array of its shape with the multipliers of its rows, entry by entry; the rows of the constraints are
/// the first of the program, constraint by constraint.
///
/// `Wide` exactly where one of these multipliers passes 128 bits: the first one over all these rows, with its row and its
/// first operation that passes.
pub fn duals_of(
    alloc: Global,
    constraints: &[Constraint],
    answer: &LpAnswer,
) -> Result<Duals, MultiplierStop>
    requires rows { sum_by constraint_rows constraints.now ≤ length answer.now.rows }
    requires few { length answer.now.rows < 2 ^ 32 }
    ensures made { IfOk result (λ d. AreDuals answer.now.status constraints.now answer.now.rows d) }
    ensures stops { IfErr result (λ e. StopsAt e (passing_from 0 (all_multipliers answer.now.status constraints.now answer.now.rows))) }
{
    let mut duals = Vec::with_capacity(alloc, constraints.len())?;
    let mut next = 0u32;
    'constraints: for constraint in constraints {
        push_dual(alloc, &mut duals, constraint, next, answer)?;
        next += constraint.shape.size();
    }
    Ok(Duals::from_vec(duals))
}
