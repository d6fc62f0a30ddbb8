//! The outcomes of a problem at settings at which its constraints are filtered.
ghost use Rattle.std.specs.Prelude.{◌≡◌, ⊤, length, IfOk, OnOk};
ghost use Rattle.dcx_rules.specs.Verdicts.{IsVerdictOf};
ghost use Rattle.dcx_tree.specs.Meaning.{IsAccepted};
ghost use Rattle.dcx_cache.specs.Counts.{Counts, CountsNoMore};
ghost use Rattle.dcx_outcomes.specs.Filters.{FilterGives, filter_end, AreFilterOutcomes};

use crate::asking::{Asking, Question};
use dcx_answer::{FilterEnd, FilterOutcome, FilterOutcomes, FilterStop, Filtered, Stop};
use dcx_cache::problem_outcomes;
use dcx_frac::Frac;
use dcx_graph::Reduced;
use dcx_iis::filter;
use dcx_linear::ParamForm;
use dcx_point::Setting;
use dcx_rules::Verdict;
use dcx_shape::Place;
use dcx_steps::Steps;
use dcx_tree::Problem;
use std::alloc::{AllocError, Global};
use std::sync::ledger::Ledger;

/// What a program is filtered to, with at most so many pivots in each step.
#[derive(Clone, Copy)]
struct Filtering {
    limit: u64,
}

impl Question for Filtering {
    type Answer = Result<Filtered, FilterStop>;

    type Outcome = FilterOutcome;

    ghost can_ask = { λ _ _. ⊤ };

    ghost gives = { λ q. FilterGives q.limit };

    ghost tells = { λ o e. filter_end o.end ≡ e };

    ghost told_place = { λ o. o.place };

    fn ask(
        &self,
        alloc: Global,
        problem: &Problem,
        _map: Option<&Reduced<ParamForm>>,
        program: &Reduced<Frac>,
        setting: &Setting,
    ) -> Result<Filtered, FilterStop> {
        filter(alloc, problem, program, setting, self.limit)
    }

    fn answered(&self, answer: Result<Filtered, FilterStop>) -> FilterOutcome {
        match answer {
            Ok(found) => FilterOutcome {
                end: FilterEnd::Filtered(found),
                place: None,
            },
            Err(stop) => FilterOutcome {
                end: FilterEnd::Filter(stop),
                place: None,
            },
        }
    }

    fn stopped(&self, stop: Stop, place: Option<Place>) -> FilterOutcome {
        FilterOutcome {
            end: FilterEnd::Stop(stop),
            place,
        }
    }
}

/// What the filter finds of an accepted problem at each setting, in order, with at most `limit` pivots in each step; or what stops
/// it, with the place in the script of the node that a setting's stop names. `AllocError` where there is no memory for the session
/// or for the list; want of memory at a setting is that setting's stop.
pub fn filter_outcomes<S: Ledger>(
    alloc: Global,
    problem: Problem,
    verdict: Verdict,
    settings: &[Setting],
    limit: u64,
    steps: &mut Steps<S>,
) -> Result<FilterOutcomes, AllocError>
    requires accepted { IsAccepted problem }
    requires verdict { IsVerdictOf problem verdict }
    ensures outcomes { IfOk result (AreFilterOutcomes problem limit settings.now) }
    ensures counted { OnOk result (Counts problem (length settings.now) steps.old steps.new) }
    ensures few { CountsNoMore problem (length settings.now) steps.old steps.new }
{
    let question = Filtering { limit };
    let asking = Asking {
        question: &question,
    };
    let outcomes = problem_outcomes(alloc, &asking, problem, verdict, settings, &mut (), steps)?;
    Ok(FilterOutcomes::from_vec(outcomes))
}
