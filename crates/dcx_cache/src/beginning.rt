//! Where the session of a problem begins.
ghost use Rattle.std.specs.Prelude.{◌≡◌, None, IfOk, OnOk};
ghost use Rattle.dcx_rules.specs.Verdicts.{IsVerdictOf};
ghost use Rattle.dcx_tree.specs.Meaning.{IsAccepted};
ghost use Rattle.dcx_cache.specs.Counts.{Counts, CountsNoMore};

use crate::session::Session;
use dcx_rules::Verdict;
use dcx_steps::Steps;
use dcx_tree::Problem;
use std::alloc::{AllocError, Global};
use std::sync::ledger::Ledger;

/// A session of an accepted problem, as `Session::begin` makes it. `AllocError` where there is no memory for it: here alone the problem is
/// dropped then, and its verdict.
pub fn begin<L: Ledger>(
    alloc: Global,
    problem: Problem,
    verdict: Verdict,
    steps: &mut Steps<L>,
) -> Result<Session, AllocError>
    requires accepted { IsAccepted problem }
    requires verdict { IsVerdictOf problem verdict }
    ensures problem { IfOk result (λ s. s.problem ≡ problem) }
    ensures columns { IfOk result (λ s. s.columns ≡ None) }
    ensures counted { OnOk result (Counts problem 0 steps.old steps.new) }
    ensures few { CountsNoMore problem 0 steps.old steps.new }
{
    match Session::begin(alloc, problem, verdict, steps) {
        Ok(session) => Ok(session),
        Err((problem, verdict)) => {
            drop(problem);
            drop(verdict);
            Err(AllocError)
        }
    }
}
