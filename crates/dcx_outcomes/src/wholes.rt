//! The outcomes of a problem with marked variables at settings.
ghost use Rattle.std.specs.Prelude.{◌≡◌, ⊤, length, IfOk, OnOk};
ghost use Rattle.dcx_rules.specs.Verdicts.{IsVerdictOf};
ghost use Rattle.dcx_tree.specs.Meaning.{IsAccepted};
ghost use Rattle.dcx_cache.specs.Counts.{Counts, CountsNoMore};
ghost use Rattle.dcx_outcomes.specs.Wholes.{WholeGives, whole_end, AreWholeOutcomes};

use crate::asking::{Asking, Question};
use dcx_answer::{BranchStop, Outcome, OutcomeEnd, Outcomes, Stop, WholeAnswer};
use dcx_branch::branch;
use dcx_cache::problem_outcomes;
use dcx_frac::Frac;
use dcx_graph::Reduced;
use dcx_linear::ParamForm;
use dcx_point::Setting;
use dcx_rules::Verdict;
use dcx_shape::Place;
use dcx_steps::Steps;
use dcx_tree::Problem;
use std::alloc::{AllocError, Global};
use std::sync::ledger::Ledger;

/// How many nodes a run may have.
const MOST_NODES: u32 = 10_000;

/// How the run of nodes over a program ends, with at most so many pivots in each node.
#[derive(Clone, Copy)]
struct Branching {
    limit: u64,
}

impl Question for Branching {
    type Answer = Result<WholeAnswer, BranchStop>;

    type Outcome = Outcome;

    ghost can_ask = { λ _ _. ⊤ };

    ghost gives = { λ q. WholeGives q.limit };

    ghost tells = { λ o e. o.end ≡ whole_end e };

    ghost told_place = { λ o. o.place };

    fn ask(
        &self,
        alloc: Global,
        problem: &Problem,
        _map: Option<&Reduced<ParamForm>>,
        program: &Reduced<Frac>,
        setting: &Setting,
    ) -> Result<WholeAnswer, BranchStop> {
        branch(alloc, problem, program, setting, self.limit, MOST_NODES)
    }

    fn answered(&self, answer: Result<WholeAnswer, BranchStop>) -> Outcome {
        match answer {
            Ok(whole) => Outcome {
                end: OutcomeEnd::Whole(whole),
                place: None,
            },
            Err(stop) => Outcome {
                end: OutcomeEnd::Branch(stop),
                place: None,
            },
        }
    }

    fn stopped(&self, stop: Stop, place: Option<Place>) -> Outcome {
        Outcome {
            end: OutcomeEnd::Stop(stop),
            place,
        }
    }
}

/// The outcome of an accepted problem with marked variables at each setting, in order, with at most `limit` pivots in each node and
/// at most 10,000 nodes: a whole optimum, that there is no whole point, or what stops the run of nodes or the program, with the place
/// in the script of the node that a program's stop names. `AllocError` where there is no memory for the session or for the list; want
/// of memory at a setting is that setting's stop.
pub(crate) fn whole_outcomes<S: Ledger>(
    alloc: Global,
    problem: Problem,
    verdict: Verdict,
    settings: &[Setting],
    limit: u64,
    steps: &mut Steps<S>,
) -> Result<Outcomes, AllocError>
    requires accepted { IsAccepted problem }
    requires verdict { IsVerdictOf problem verdict }
    ensures outcomes { IfOk result (AreWholeOutcomes problem limit settings.now) }
    ensures counted { OnOk result (Counts problem (length settings.now) steps.old steps.new) }
    ensures few { CountsNoMore problem (length settings.now) steps.old steps.new }
{
    let question = Branching { limit };
    let asking = Asking {
        question: &question,
    };
    let outcomes = problem_outcomes(alloc, &asking, problem, verdict, settings, &mut (), steps)?;
    Ok(Outcomes::from_vec(outcomes))
}
