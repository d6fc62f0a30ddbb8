//! Constraints that no point keeps together, though some point keeps all but any one of them.
ghost use Rattle.std.specs.Prelude.{◌≡◌, ◌<◌, ◌≤◌, ◌^◌, ℕ, length, sum_by, IfOk, IfErr, OnOk};
ghost use Rattle.dcx_unknowns.specs.Layout.{constraint_rows};
ghost use Rattle.dcx_tree.specs.Meaning.{setting_of};
ghost use Rattle.dcx_right.specs.Filters.{IsRightFor};
ghost use Rattle.dcx_graph.specs.Program.{Program};
ghost use Rattle.dcx_iis.specs.Steps.{flagged, kept_of, StopsFilter};
ghost use Rattle.dcx_graph.specs.Answers.{IsReducedAt};
ghost use Rattle.dcx_iis.specs.Found.{IsFound};
ghost use Rattle.dcx_iis.specs.Runs.{numbers_from, AreDualsOf, IsLeft, IsEnd, StopsRun};

use crate::duals::duals_kept;
use crate::left::Left;
use crate::trying::{Tried, try_kept};
use dcx_answer::{Duals, FilterStop, Filtered, Members, Points, Site, Stop};
use dcx_frac::Frac;
use dcx_graph::Reduced;
use dcx_lp_answer::MultiplierStop;
use dcx_point::Setting;
use dcx_tree::Problem;
use std::alloc::{AllocError, Global};

/// The numbers of the constraints that are kept.
fn members_of(alloc: Global, kept: &[bool]) -> Result<Members, AllocError>
    requires { length kept.now < 2 ^ 32 }
    ensures { IfOk result (λ v. v ≡ numbers_from 0 kept.now) }
{
    let mut members = Vec::new(alloc);
    'kept: for (index, flag) in kept.iter().enumerate() {
        if *flag {
            members.push(index as u32)?;
        }
    }
    Ok(Members::from_vec(members))
}

/// The multipliers of all constraints; those of constraints that are left out are 0.
fn duals_left(alloc: Global, problem: &Problem, left: &Left) -> Result<Duals, FilterStop>
    requires flags { length left.now.kept.items ≡ length problem.now.constraints }
    requires rows { sum_by constraint_rows (kept_of (flagged left.now.kept.items) problem.now.constraints) ≤ length left.now.answer.rows }
    requires few { length left.now.answer.rows < 2 ^ 32 }
    ensures made { IfOk result (AreDualsOf problem.now left.now) }
    ensures stops { (q : Program Frac) (limit : ℕ) → IsLeft problem.now q limit (length problem.now.constraints) left.now → IfErr result (StopsRun problem.now q limit) }
{
    match duals_kept(
        alloc,
        problem.constraints.as_slice(),
        &left.kept,
        &left.answer,
    ) {
        Ok(duals) => Ok(duals),
        Err(MultiplierStop::Wide { row, passes }) => Err(FilterStop::Step {
            step: left.step,
            stop: Stop::Wide(Site::Answer { row, passes }),
        }),
        Err(MultiplierStop::Memory) => Err(FilterStop::Memory),
    }
}

/// The numbers of the constraints that are left, and the multipliers of all constraints.
fn members_and_duals(
    alloc: Global,
    problem: &Problem,
    left: &Left,
) -> Result<(Members, Duals), FilterStop>
    requires flags { length left.now.kept.items ≡ length problem.now.constraints }
    requires rows { sum_by constraint_rows (kept_of (flagged left.now.kept.items) problem.now.constraints) ≤ length left.now.answer.rows }
    requires few { length left.now.answer.rows < 2 ^ 32 }
    ensures members { IfOk result (λ r. r.0 ≡ numbers_from 0 left.now.kept.items) }
    ensures duals { IfOk result (λ r. AreDualsOf problem.now left.now r.1) }
    ensures stops { (q : Program Frac) (limit : ℕ) → IsLeft problem.now q limit (length problem.now.constraints) left.now → IfErr result (StopsRun problem.now q limit) }
{
    let members = members_of(alloc, &left.kept)?;
    let duals = duals_left(alloc, problem, left)?;
    Ok((members, duals))
}

/// What is found once all constraints are tried.
fn found(alloc: Global, problem: &Problem, left: Left) -> Result<Filtered, FilterStop>
    requires flags { length left.kept.items ≡ length problem.now.constraints }
    requires rows { sum_by constraint_rows (kept_of (flagged left.kept.items) problem.now.constraints) ≤ length left.answer.rows }
    requires few { length left.answer.rows < 2 ^ 32 }
    ensures end { IfOk result (IsEnd problem.now left) }
    ensures stops { (q : Program Frac) (limit : ℕ) → IsLeft problem.now q limit (length problem.now.constraints) left → IfErr result (StopsRun problem.now q limit) }
{
    match members_and_duals(alloc, problem, &left) {
        Ok(both) => {
            let (members, duals) = both;
            let Left {
                kept,
                answer,
                step: _,
                points,
            } = left;
            let gap = answer.number;
            drop((kept, answer));
            Ok(Filtered::Infeasible {
                members,
                duals,
                gap,
                points: Points::from_vec(points),
            })
        }
        Err(stop) => {
            drop(left);
            Err(stop)
        }
    }
}

/// Tries the constraints one after the other.
fn try_each(
    alloc: Global,
    problem: &Problem,
    reduced: &Reduced<Frac>,
    limit: u64,
    left: &mut Left,
) -> Result<(), FilterStop>
    requires rows { sum_by constraint_rows problem.now.constraints ≤ length reduced.now.program.rows }
    requires left { IsLeft problem.now reduced.now.program limit 0 left.old }
    ensures left { OnOk result (IsLeft problem.now reduced.now.program limit (length problem.now.constraints) left.new) }
    ensures stops { IfErr result (StopsRun problem.now reduced.now.program limit) }
{
    let count = problem.constraints.as_slice().len() as u32;
    'constraints: for constraint in 0..count {
        left.try_without(alloc, problem, reduced, limit, constraint)?;
    }
    Ok(())
}

/// The constraints of a problem that keep it from having a feasible point: a point where there is one, and else constraints that no
/// point of the domain keeps together, with a point for each of them that keeps all the others. The reduced program is one of this
/// problem at this setting; each step is solved with at most `limit` pivots.
///
/// `Step` exactly where a step's program has no answer, at the first such step: step 0 has the rows of all constraints, and step `i`
/// those that are left beside constraint `i`, counted from 1. Or else, at the last step that was impossible, where one of the
/// multipliers of its rows passes 128 bits. A row of an inner site is one of the step's own program.
pub fn filter(
    alloc: Global,
    problem: &Problem,
    reduced: &Reduced<Frac>,
    setting: &Setting,
    limit: u64,
) -> Result<Filtered, FilterStop>
    requires reduced { IsReducedAt problem.now (setting_of problem.now setting.now) reduced.now.program }
    ensures right { IfOk result (IsRightFor problem.now (setting_of problem.now setting.now)) }
    ensures found { IfOk result (IsFound problem.now reduced.now.program limit) }
    ensures stops { IfErr result (StopsFilter problem.now (setting_of problem.now setting.now) reduced.now.program limit) }
{
    let kept = vec![in alloc; true; problem.constraints.as_slice().len()]?;
    match try_kept(alloc, problem, reduced, &kept, limit, 0)? {
        Tried::Possible { point } => Ok(Filtered::Feasible { point }),
        Tried::Impossible { answer } => {
            let mut left = Left {
                kept,
                answer,
                step: 0,
                points: Vec::new(alloc),
            };
            match try_each(alloc, problem, reduced, limit, &mut left) {
                Ok(()) => found(alloc, problem, left),
                Err(stop) => {
                    drop(left);
                    Err(stop)
                }
            }
        }
    }
}
