//! How one setting ends, and the outcome that tells it.
ghost use Rattle.std.specs.Prelude.{◌≡◌, ◌+◌, ◌≤◌, ⊤, cond, length, IfErr, OnOk};
ghost use Rattle.dcx_cache.specs.Programs.{HasMap};
ghost use Rattle.dcx_outcomes.specs.Outcomes.{site_place, stop_place, NamesNodes, IsNodeSite};
ghost use Rattle.dcx_outcomes.specs.Warm.{is_kept as is_kept_of, Tells, EndsFrom, IsToldFrom};

use dcx_answer::{Outcome, OutcomeEnd, Site, Stop};
use dcx_cache::{EachSetting, Session, Warmed};
use dcx_point::Setting;
use dcx_shape::Place;
use dcx_steps::Steps;
use dcx_tree::Problem;
use std::alloc::{AllocError, Global};
use std::sync::ledger::Ledger;

/// Where the node stands in the script at which an operation passes, if it is one.
fn site_place(problem: &Problem, site: Site) -> Option<Place>
    requires { IsNodeSite problem.now site }
    ensures { result ≡ site_place problem.now site }
{
    match site {
        Site::Node { node, .. } => Some(problem.tree.place(node)),
        _ => None,
    }
}

/// Where the node stands in the script that a stop names, if it names one.
pub(crate) fn stop_place(problem: &Problem, stop: &Stop) -> Option<Place>
    requires { NamesNodes problem.now stop.now }
    ensures { result ≡ stop_place problem.now stop.now }
{
    match stop {
        Stop::ZeroDivisor { node, .. } => Some(problem.tree.place(*node)),
        Stop::Wide(site) => site_place(problem, *site),
        _ => None,
    }
}

/// The outcome of a stop.
fn stopped(problem: &Problem, stop: Stop) -> Outcome
    requires { NamesNodes problem.now stop }
    ensures end { result.end ≡ OutcomeEnd.Stop stop }
    ensures place { result.place ≡ stop_place problem.now stop }
{
    let place = stop_place(problem, &stop);
    Outcome {
        end: OutcomeEnd::Stop(stop),
        place,
    }
}

/// The outcome that tells how a setting ends.
fn told(problem: &Problem, end: Result<Warmed, Stop>) -> Outcome
    requires { IfErr end (NamesNodes problem.now) }
    ensures { Tells problem.now end result }
{
    match end {
        Ok(warmed) => Outcome {
            end: OutcomeEnd::Answer(warmed.answer),
            place: None,
        },
        Err(stop) => stopped(problem, stop),
    }
}

/// Whether a setting is answered from the columns that were kept.
fn is_kept(end: &Result<Warmed, Stop>) -> bool
    ensures { result ≡ is_kept_of end.now }
{
    matches!(end, Ok(Warmed { kept: true, .. }))
}

/// How a session ends at a setting: from the columns that it keeps, if that is wanted.
fn session_end<S: Ledger>(
    alloc: Global,
    session: &mut Session,
    setting: &Setting,
    limit: u64,
    warm: bool,
    steps: &mut Steps<S>,
) -> Result<Warmed, Stop>
    ensures ends { EndsFrom warm session.old.problem limit setting.now session.old.columns result session.new.columns }
    ensures same { session.new.problem ≡ session.old.problem }
    ensures counted { HasMap session.old.problem → steps.new ≡ steps.old }
    ensures few { steps.new ≤ steps.old + length session.old.problem.tree }
{
    if warm {
        return session.solve_warm(alloc, setting, limit, steps);
    }
    match session.solve(alloc, setting, limit, steps) {
        Ok(answer) => Ok(Warmed {
            answer,
            kept: false,
        }),
        Err(stop) => Err(stop),
    }
}

/// Counts one more where a setting is answered from the columns that were kept. `AllocError` where more are than a `u32` counts.
fn count(kept: &mut u32, is_kept: bool) -> Result<(), AllocError>
    ensures { OnOk result (kept.new ≡ kept.old + cond is_kept 1 0) }
{
    if !is_kept {
        return Ok(());
    }
    match kept.checked_add(1) {
        Some(more) => {
            *kept = more;
            Ok(())
        }
        None => Err(AllocError),
    }
}

/// A problem is solved at each setting, with at most so many pivots; where `warm` says so, from the columns that the settings before left.
#[derive(Clone, Copy)]
pub(crate) struct Solving {
    /// The most pivots.
    pub limit: u64,
    /// Whether it is solved from these columns.
    pub warm: bool,
}

impl EachSetting for Solving {
    type Outcome = Outcome;

    type Tally = u32;

    ghost can_do = { λ _ _. ⊤ };

    ghost ends = { λ t p. IsToldFrom t.warm p t.limit };

    fn outcome<S: Ledger>(
        &self,
        alloc: Global,
        session: &mut Session,
        setting: &Setting,
        kept: &mut u32,
        steps: &mut Steps<S>,
    ) -> Result<Outcome, AllocError> {
        let end = session_end(alloc, session, setting, self.limit, self.warm, steps);
        let counted = count(kept, is_kept(&end));
        let outcome = told(session.problem(), end);
        match counted {
            Ok(()) => Ok(outcome),
            Err(_) => {
                drop(outcome);
                Err(AllocError)
            }
        }
    }
}
