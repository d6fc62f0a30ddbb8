//! The outcomes of a problem at settings, one after the other.
ghost use Rattle.std.specs.Prelude.{◌≡◌, length, None, IfOk, OnOk};
ghost use Rattle.dcx_rules.specs.Verdicts.{IsVerdictOf};
ghost use Rattle.dcx_tree.specs.Meaning.{IsAccepted};
ghost use Rattle.dcx_cache.specs.Counts.{Counts, CountsNoMore};
ghost use Rattle.dcx_outcomes.specs.Wholes.{AreWholeOutcomes};
ghost use Rattle.dcx_outcomes.specs.Warm.{AreSolved, AreFound, counted_where};

use crate::telling::Solving;
use crate::wholes::whole_outcomes;
use dcx_answer::Outcomes;
use dcx_cache::problem_outcomes;
use dcx_declared::has_whole;
use dcx_point::Setting;
use dcx_rules::Verdict;
use dcx_steps::Steps;
use dcx_tree::Problem;
use std::alloc::{AllocError, Global};
use std::sync::ledger::Ledger;

/// The outcomes of a problem at settings.
#[derive(Drop)]
pub struct Found {
    /// One for each setting, in order.
    pub outcomes: Outcomes,
    /// How many settings are answered from the columns of an earlier answer, where that was wanted.
    pub warm: Option<u32>,
}

/// The count, where it is wanted.
fn counted(warm: bool, kept: u32) -> Option<u32>
    ensures { result ≡ counted_where warm kept }
{
    if warm { Some(kept) } else { None }
}

/// The outcome of a solve of an accepted problem at each setting: what one session answers there.
fn solved_outcomes<S: Ledger>(
    alloc: Global,
    problem: Problem,
    verdict: Verdict,
    settings: &[Setting],
    limit: u64,
    warm: bool,
    steps: &mut Steps<S>,
) -> Result<Found, AllocError>
    requires accepted { IsAccepted problem }
    requires verdict { IsVerdictOf problem verdict }
    ensures outcomes { IfOk result (λ f. AreSolved warm problem limit settings.now f.outcomes f.warm) }
    ensures counted { OnOk result (Counts problem (length settings.now) steps.old steps.new) }
    ensures few { CountsNoMore problem (length settings.now) steps.old steps.new }
{
    let solving = Solving { limit, warm };
    let mut kept = 0;
    let outcomes = problem_outcomes(
        alloc, &solving, problem, verdict, settings, &mut kept, steps,
    )?;
    Ok(Found {
        outcomes: Outcomes::from_vec(outcomes),
        warm: counted(warm, kept),
    })
}

/// How branch and bound ends for an accepted problem at each setting. None is warm.
fn whole_found<S: Ledger>(
    alloc: Global,
    problem: Problem,
    verdict: Verdict,
    settings: &[Setting],
    limit: u64,
    steps: &mut Steps<S>,
) -> Result<Found, AllocError>
    requires accepted { IsAccepted problem }
    requires verdict { IsVerdictOf problem verdict }
    ensures outcomes { IfOk result (λ f. AreWholeOutcomes problem limit settings.now f.outcomes × (f.warm ≡ None)) }
    ensures counted { OnOk result (Counts problem (length settings.now) steps.old steps.new) }
    ensures few { CountsNoMore problem (length settings.now) steps.old steps.new }
{
    match whole_outcomes(alloc, problem, verdict, settings, limit, steps) {
        Ok(outcomes) => Ok(Found {
            outcomes,
            warm: None,
        }),
        Err(e) => Err(e),
    }
}

/// The outcome of an accepted problem at each setting, in order, with at most `limit` pivots each: what one session answers there; or,
/// where a variable is to be whole, how branch and bound ends, with at most `limit` pivots in each node and at most 10,000 nodes; with
/// the place in the script of the node that a stop names. Where `warm` says so, each setting is answered from the columns that the
/// settings before it left, where that can be, and those that are answered so are counted; none is whole then. `AllocError` where there
/// is no memory for the session or for the list, or where more settings are warm than a `u32` counts; want of memory at a setting is that
/// setting's stop.
pub fn outcomes<S: Ledger>(
    alloc: Global,
    problem: Problem,
    verdict: Verdict,
    settings: &[Setting],
    limit: u64,
    warm: bool,
    steps: &mut Steps<S>,
) -> Result<Found, AllocError>
    requires accepted { IsAccepted problem }
    requires verdict { IsVerdictOf problem verdict }
    ensures outcomes { IfOk result (λ f. AreFound warm problem limit settings.now f.outcomes f.warm) }
    ensures counted { OnOk result (Counts problem (length settings.now) steps.old steps.new) }
    ensures few { CountsNoMore problem (length settings.now) steps.old steps.new }
{
    if warm {
        return solved_outcomes(alloc, problem, verdict, settings, limit, true, steps);
    }
    if has_whole(&problem) {
        whole_found(alloc, problem, verdict, settings, limit, steps)
    } else {
        solved_outcomes(alloc, problem, verdict, settings, limit, false, steps)
    }
}
