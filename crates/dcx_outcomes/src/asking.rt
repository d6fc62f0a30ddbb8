//! A question that is asked of a session's program at setting after setting.
ghost use Rattle.std.specs.Prelude.{◌≡◌, is_some, Option, Result, None, Ok, Err, MatchOption};
ghost use Rattle.dcx_shape.specs.declared.place.Place.{Place};
ghost use Rattle.dcx_frac.specs.declared.fraction.Frac.{Frac};
ghost use Rattle.dcx_point.specs.Pairs.{Pairs};
ghost use Rattle.dcx_tree.specs.declared.problem.Problem.{Problem};
ghost use Rattle.dcx_fit.specs.Fit.{FitsParameters};
ghost use Rattle.dcx_answer.specs.declared.stop.Stop.{Stop};
ghost use Rattle.dcx_answer.specs.NodeStops.{stop_names_node};
ghost use Rattle.dcx_graph.specs.Program.{Program};
ghost use Rattle.dcx_cache.specs.Programs.{IsMapOf, HasMap, SessionGives, IsProgramAt};
ghost use Rattle.dcx_outcomes.specs.Asking.{IsAnswered, IsAskedOutcome};

use crate::telling::stop_place;
use dcx_answer::Stop;
use dcx_cache::{EachSetting, Session};
use dcx_frac::Frac;
use dcx_graph::Reduced;
use dcx_linear::ParamForm;
use dcx_point::Setting;
use dcx_shape::Place;
use dcx_steps::Steps;
use dcx_tree::Problem;
use std::alloc::{AllocError, Global};
use std::sync::ledger::Ledger;

/// A question that a session's program answers at a setting.
pub(crate) trait Question {
    /// What it finds, or what stops it.
    type Answer;

    /// The outcome of a setting.
    type Outcome: Drop;

    /// Whether it can be asked of a problem.
    ghost can_ask: { Self → Problem → Type 0 };

    /// Which answers it has at a setting of a problem, for a program there.
    ghost gives: { Self → Problem → Pairs → Program Frac → Self.Answer → Type 0 };

    /// Whether an outcome tells that a setting ends so.
    ghost tells: { Self.Outcome → Result Self.Answer Stop → Type 0 };

    /// The place that its outcome tells.
    ghost told_place: { Self.Outcome → Option Place };

    /// The answer at a setting for the session's program there, beside the program with affine coefficients that the session keeps.
    fn ask(
        &self,
        alloc: Global,
        problem: &Problem,
        map: Option<&Reduced<ParamForm>>,
        program: &Reduced<Frac>,
        setting: &Setting,
    ) -> Self::Answer
        requires can { can_ask self.now problem.now }
        requires kept { MatchOption map (¬ (HasMap problem.now)) (λ m. IsMapOf problem.now m.now.program) }
        requires given { SessionGives problem.now setting.now (Ok program.now.program) }
        requires program { IsProgramAt problem.now setting.now program.now.program }
        ensures { gives self.now problem.now setting.now program.now.program result };

    /// The outcome that tells an answer.
    fn answered(&self, answer: Self::Answer) -> Self::Outcome
        ensures end { tells result (Ok answer) }
        ensures place { told_place result ≡ None };

    /// The outcome that tells what stops the program, with the place of the node that it names.
    fn stopped(&self, stop: Stop, place: Option<Place>) -> Self::Outcome
        requires { is_some place ≡ stop_names_node stop }
        ensures end { tells result (Err stop) }
        ensures place { told_place result ≡ place };
}

/// The answer at a setting for the session's program there.
fn answer<Q: Question>(
    alloc: Global,
    question: &Q,
    session: &Session,
    program: &Reduced<Frac>,
    setting: &Setting,
) -> Q::Answer
    requires can { Q.can_ask question.now session.now.problem }
    requires fits { FitsParameters session.now.problem.parameters setting.now }
    requires given { SessionGives session.now.problem setting.now (Ok program.now.program) }
    requires program { IsProgramAt session.now.problem setting.now program.now.program }
    ensures { IsAnswered (Q.gives question.now) session.now.problem setting.now result }
{
    question.ask(alloc, session.problem(), session.map(), program, setting)
}

/// A question that is asked of a session at each setting.
#[derive(Drop)]
pub(crate) struct Asking<'a, Q> {
    /// The question.
    pub question: &'a Q,
}

impl<Q: Question> EachSetting for Asking<'_, Q> {
    type Outcome = Q::Outcome;

    type Tally = ();

    ghost can_do = { λ a. Q.can_ask a.question.now };

    ghost ends = { λ a p s _ o _. IsAskedOutcome (Q.gives a.question.now) Q.tells Q.told_place p s o };

    fn outcome<S: Ledger>(
        &self,
        alloc: Global,
        session: &mut Session,
        setting: &Setting,
        _tally: &mut (),
        steps: &mut Steps<S>,
    ) -> Result<Q::Outcome, AllocError> {
        match session.program(alloc, setting, steps) {
            Ok(program) => {
                let found = answer(alloc, self.question, session, &program, setting);
                drop(program);
                Ok(self.question.answered(found))
            }
            Err(stop) => {
                let place = stop_place(session.problem(), &stop);
                Ok(self.question.stopped(stop, place))
            }
        }
    }
}
