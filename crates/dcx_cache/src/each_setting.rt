//! What is done with one session at setting after setting.
ghost use Rattle.std.specs.Prelude.{◌≡◌, ℕ, ◌+◌, ◌*◌, ◌≤◌, List, length, Option, None, IfOk, OnOk};
ghost use Rattle.dcx_point.specs.Pairs.{Pairs};
ghost use Rattle.dcx_rules.specs.Verdicts.{IsVerdictOf};
ghost use Rattle.dcx_tree.specs.declared.problem.Problem.{Problem};
ghost use Rattle.dcx_tree.specs.Meaning.{IsAccepted};
ghost use Rattle.dcx_cache.specs.Programs.{HasMap};
ghost use Rattle.dcx_cache.specs.Counts.{Counts, CountsNoMore};
ghost use Rattle.dcx_cache.specs.InTurn.{EndInTurn};

use crate::beginning::begin;
use crate::session::Session;
use dcx_point::Setting;
use dcx_rules::Verdict;
use dcx_steps::Steps;
use dcx_tree::Problem;
use std::alloc::{AllocError, Global};
use std::sync::ledger::Ledger;

/// What is done with a session at each setting.
pub trait EachSetting {
    /// What comes of a setting.
    type Outcome: Drop;

    /// What is added up over the settings.
    type Tally;

    /// Whether it can be done with a problem.
    ghost can_do: { Self → Problem → Type 0 };

    /// How a setting of a problem ends: from the columns that the session keeps and the tally before it, with what comes of it, and with
    /// the columns and the tally after it.
    ghost ends: { Self → Problem → Pairs → (Option (List ℕ) × Self.Tally) → Self.Outcome → (Option (List ℕ) × Self.Tally) → Type 0 };

    /// What comes of a setting. `AllocError` where there is no memory for it.
    fn outcome<L: Ledger>(
        &self,
        alloc: Global,
        session: &mut Session,
        setting: &Setting,
        tally: &mut Self::Tally,
        steps: &mut Steps<L>,
    ) -> Result<Self::Outcome, AllocError>
        requires { can_do self.now session.old.problem }
        ensures end { IfOk result (λ o. ends self.now session.old.problem setting.now (session.old.columns, tally.old) o (session.new.columns, tally.new)) }
        ensures same { session.new.problem ≡ session.old.problem }
        ensures counted { HasMap session.old.problem → steps.new ≡ steps.old }
        ensures few { steps.new ≤ steps.old + length session.old.problem.tree };
}

/// What comes of settings, in order, where a session has begun. `AllocError` where there is no memory for the list or at a setting.
pub fn session_outcomes<E: EachSetting, L: Ledger>(
    alloc: Global,
    each: &E,
    session: &mut Session,
    settings: &[Setting],
    tally: &mut E::Tally,
    steps: &mut Steps<L>,
) -> Result<Vec<E::Outcome>, AllocError>
    requires { E.can_do each.now session.old.problem }
    ensures outcomes { IfOk result (λ v. EndInTurn (E.ends each.now session.old.problem) settings.now (session.old.columns, tally.old) v.items (session.new.columns, tally.new)) }
    ensures counted { HasMap session.old.problem → steps.new ≡ steps.old }
    ensures few { steps.new ≤ steps.old + length settings.now * length session.old.problem.tree }
{
    let mut outcomes = Vec::with_capacity(alloc, settings.len())?;
    for setting in settings {
        let next = each.outcome(alloc, session, setting, tally, steps)?;
        outcomes.push(next)?;
    }
    Ok(outcomes)
}

/// What comes of an accepted problem at settings, in order, by one session. `AllocError` where there is no memory for the session, for the
/// list or at a setting.
pub fn problem_outcomes<E: EachSetting, L: Ledger>(
    alloc: Global,
    each: &E,
    problem: Problem,
    verdict: Verdict,
    settings: &[Setting],
    tally: &mut E::Tally,
    steps: &mut Steps<L>,
) -> Result<Vec<E::Outcome>, AllocError>
    requires accepted { IsAccepted problem }
    requires verdict { IsVerdictOf problem verdict }
    requires can { E.can_do each.now problem }
    ensures outcomes { IfOk result (λ v. (after : Option (List ℕ)) × EndInTurn (E.ends each.now problem) settings.now (None, tally.old) v.items (after, tally.new)) }
    ensures counted { OnOk result (Counts problem (length settings.now) steps.old steps.new) }
    ensures few { CountsNoMore problem (length settings.now) steps.old steps.new }
{
    let mut session = begin(alloc, problem, verdict, steps)?;
    let outcomes = session_outcomes(alloc, each, &mut session, settings, tally, steps);
    drop(session);
    outcomes
}
