//! The certificate of the answers that one session gives at settings.
ghost use Rattle.std.specs.Prelude.{◌≡◌, ◌≢◌, ◌↔◌, ⊤, ℕ, ◌+◌, ◌*◌, ◌≤◌, IsTrue, length, IfOk, OnOk};
ghost use Rattle.dcx_rules.specs.Verdicts.{IsVerdictOf};
ghost use Rattle.dcx_tree.specs.Meaning.{IsAccepted};
ghost use Rattle.dcx_cache.specs.Programs.{HasMap};
ghost use Rattle.dcx_cache.specs.Sessions.{Shows};
ghost use Rattle.dcx_cert_runs.specs.Sections.{IsSectionAt, IsStoppedAt, IsTold, StopsSomewhere, IsCertificateAt};

use dcx_answer::{Answer, Stop};
use dcx_cache::{EachSetting, Session, problem_outcomes};
use dcx_cert_build::build;
use dcx_cert_sections::{Format, Section, SectionList, Sections};
use dcx_graph::AnswerStop;
use dcx_point::Setting;
use dcx_rules::Verdict;
use dcx_steps::Steps;
use dcx_tree::Problem;
use std::alloc::{AllocError, Global};
use std::sync::ledger::Ledger;

/// A certificate, and whether a setting is stopped.
#[derive(Drop)]
pub struct Found {
    /// The certificate.
    pub certificate: Sections,
    /// Whether a setting is stopped.
    pub stopped: bool,
}

/// The section of an answer of which no certificate is built.
fn unbuilt(stop: AnswerStop) -> Result<Section, AllocError>
    ensures none { IfOk result (λ x. x ≡ Section.None) }
    ensures told { OnOk result (stop ≢ AnswerStop.Memory) }
{
    match stop {
        AnswerStop::Memory => Err(AllocError),
        AnswerStop::Wide(_) => Ok(Section::None),
    }
}

/// The section of the answer that the session found last, with at most some number of pivots.
fn answered(
    alloc: Global,
    session: &Session,
    setting: &Setting,
    answer: &Answer,
) -> Result<Section, AllocError>
    requires { (limit : ℕ) × Shows session.now.problem setting.now limit session.now.cached answer.now session.now.last }
    ensures section { (limit : ℕ) → Shows session.now.problem setting.now limit session.now.cached answer.now session.now.last
        → IfOk result (IsSectionAt session.now.problem limit setting.now) }
    ensures not_stopped { (limit : ℕ) → Shows session.now.problem setting.now limit session.now.cached answer.now session.now.last
        → ¬ (IsStoppedAt session.now.problem limit setting.now) }
{
    let Some((reduced, rows)) = session.last() else {
        unreachable!()
    };
    match build(alloc, session.problem(), setting, answer, reduced, rows) {
        Ok(cert) => Ok(Section::Cert(cert)),
        Err(stop) => unbuilt(stop),
    }
}

/// The section of a setting that is stopped.
fn unanswered(stop: Stop) -> Result<Section, AllocError>
    ensures none { IfOk result (λ x. x ≡ Section.None) }
    ensures told { OnOk result (stop ≢ Stop.Memory) }
{
    match stop {
        Stop::Memory => Err(AllocError),
        _ => Ok(Section::None),
    }
}

/// The certificate of the answer at each setting, with at most so many pivots.
#[derive(Clone, Copy)]
struct Certifying {
    limit: u64,
}

impl EachSetting for Certifying {
    type Outcome = Section;

    type Tally = bool;

    ghost can_do = { λ _ _. ⊤ };

    ghost ends = { λ c p. IsTold p c.limit };

    fn outcome<S: Ledger>(
        &self,
        alloc: Global,
        session: &mut Session,
        setting: &Setting,
        stopped: &mut bool,
        steps: &mut Steps<S>,
    ) -> Result<Section, AllocError> {
        match session.solve(alloc, setting, self.limit, steps) {
            Ok(answer) => {
                let section = answered(alloc, session, setting, &answer);
                drop(answer);
                section
            }
            Err(stop) => {
                *stopped = true;
                unanswered(stop)
            }
        }
    }
}

/// The certificate of an accepted problem at each setting, in order, with at most `limit` pivots each: of what one session answers
/// there. A section is empty where the setting is stopped, and where a weight passes 128 bits. `AllocError` where there is no memory,
/// at a setting too.
pub fn certificate<S: Ledger>(
    alloc: Global,
    problem: Problem,
    verdict: Verdict,
    settings: &[Setting],
    limit: u64,
    steps: &mut Steps<S>,
) -> Result<Found, AllocError>
    requires accepted { IsAccepted problem }
    requires verdict { IsVerdictOf problem verdict }
    ensures certificate { IfOk result (λ f. IsCertificateAt problem limit settings.now f.certificate) }
    ensures stopped { IfOk result (λ f. IsTrue f.stopped ↔ StopsSomewhere problem limit settings.now) }
    ensures mapped { OnOk result (HasMap problem → steps.new ≡ steps.old + length problem.tree) }
    ensures few { HasMap problem → steps.new ≤ steps.old + length problem.tree }
    ensures anew { steps.new ≤ steps.old + length problem.tree + length settings.now * length problem.tree }
{
    let certifying = Certifying { limit };
    let mut stopped = false;
    let list = problem_outcomes(
        alloc,
        &certifying,
        problem,
        verdict,
        settings,
        &mut stopped,
        steps,
    )?;
    Ok(Found {
        certificate: Sections {
            format: Format::Two,
            list: SectionList::from_vec(list),
        },
        stopped,
    })
}
