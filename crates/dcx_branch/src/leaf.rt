//! The multipliers of a leaf.
ghost use Rattle.std.specs.Prelude.{◌≡◌, ◌+◌, ◌<◌, ◌≤◌, ◌^◌, length, map, sum_by, IfOk, IfErr};
ghost use Rattle.dcx_unknowns.specs.Layout.{constraint_rows};
ghost use Rattle.dcx_lp_answer.specs.Multipliers.{passing_from, StopsAt};
ghost use Rattle.dcx_branch.specs.Leaves.{bound_duals as duals_by, bound_multipliers, AreBoundDuals, IsLeaf, StopsLeaf, leaf_stop as stop_by};

use crate::bound::BoundAt;
use dcx_answer::{BoundWeight, BoundWeights, Duals, Site, Stop};
use dcx_frac::Frac;
use dcx_linear::RowKind;
use dcx_lp_answer::{LpAnswer, MultiplierStop, multipliers};
use dcx_postsolve::duals_of;
use dcx_tree::Problem;
use std::alloc::{AllocError, Global};

/// The multipliers of a leaf.
#[derive(Drop)]
pub(crate) struct Leaf {
    /// Those of each constraint.
    pub duals: Duals,
    /// Those of the bounds of its box.
    pub bounds: BoundWeights,
}

/// The stop at a multiplier.
fn leaf_stop(stop: MultiplierStop) -> Stop
    ensures { result ≡ stop_by stop }
{
    match stop {
        MultiplierStop::Wide { row, passes } => Stop::Wide(Site::Answer { row, passes }),
        MultiplierStop::Memory => Stop::Memory,
    }
}

/// The bounds with these multipliers.
fn weighed(alloc: Global, bounds: &[BoundAt], weights: &[Frac]) -> Result<BoundWeights, AllocError>
    requires { length bounds.now ≤ length weights.now }
    ensures { IfOk result (λ d. d ≡ duals_by bounds.now weights.now) }
{
    let mut duals = Vec::with_capacity(alloc, bounds.len())?;
    'bounds: for (index, bound) in bounds.iter().enumerate() {
        duals.push(BoundWeight {
            variable: bound.place.variable,
            entry: bound.place.entry,
            upper: bound.upper,
            weight: weights[index],
        })?;
    }
    Ok(BoundWeights::from_vec(duals))
}

/// The multipliers of the rows of bounds, the first of which has the number `first`.
fn bound_duals(
    alloc: Global,
    answer: &LpAnswer,
    first: u32,
    bounds: &[BoundAt],
) -> Result<BoundWeights, MultiplierStop>
    requires rows { first + length bounds.now ≤ length answer.now.rows }
    requires few { length answer.now.rows < 2 ^ 32 }
    ensures made { IfOk result (AreBoundDuals answer.now first bounds.now) }
    ensures stops { IfErr result (λ e. StopsAt e (passing_from first (bound_multipliers answer.now first bounds.now))) }
{
    let next = first + bounds.len() as u32;
    let weights = multipliers(alloc, answer, RowKind::AtMost, first, next)?;
    Ok(weighed(alloc, bounds, weights.as_slice())?)
}

/// The multipliers of a leaf: those of the rows of constraints, and then those of the rows of bounds, the first of which has the
/// number `first`.
fn multiplied(
    alloc: Global,
    problem: &Problem,
    answer: &LpAnswer,
    first: u32,
    bounds: &[BoundAt],
) -> Result<Leaf, MultiplierStop>
    requires constraints { sum_by constraint_rows problem.now.constraints ≤ length answer.now.rows }
    requires rows { first + length bounds.now ≤ length answer.now.rows }
    requires few { length answer.now.rows < 2 ^ 32 }
    ensures made { IfOk result (λ l. IsLeaf problem.now answer.now first bounds.now l.duals l.bounds) }
    ensures stops { IfErr result (λ e. StopsLeaf problem.now answer.now first bounds.now (stop_by e)) }
{
    let duals = duals_of(alloc, problem.constraints.as_slice(), answer)?;
    let bounds = bound_duals(alloc, answer, first, bounds)?;
    Ok(Leaf { duals, bounds })
}

/// The multipliers of a leaf.
///
/// `Wide` exactly where one of them passes 128 bits: the first one, those of constraints before those of bounds.
pub(crate) fn leaf_of(
    alloc: Global,
    problem: &Problem,
    answer: &LpAnswer,
    first: u32,
    bounds: &[BoundAt],
) -> Result<Leaf, Stop>
    requires constraints { sum_by constraint_rows problem.now.constraints ≤ length answer.now.rows }
    requires rows { first + length bounds.now ≤ length answer.now.rows }
    requires few { length answer.now.rows < 2 ^ 32 }
    ensures made { IfOk result (λ l. IsLeaf problem.now answer.now first bounds.now l.duals l.bounds) }
    ensures stops { IfErr result (StopsLeaf problem.now answer.now first bounds.now) }
{
    match multiplied(alloc, problem, answer, first, bounds) {
        Ok(leaf) => Ok(leaf),
        Err(stop) => Err(leaf_stop(stop)),
    }
}
