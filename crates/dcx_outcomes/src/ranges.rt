//! Whether a parameter has a range, and the outcomes of a problem at settings at which it is told.
ghost use Rattle.std.specs.Prelude.{◌≡◌, IfOk, OnOk};
ghost use Rattle.dcx_outcomes.specs.Ranges.{HasRange, TellsRange, TellsOf, range_end, AreRangeOutcomes};

use crate::asking::{Asking, Question};
use dcx_answer::{NotRanged, RangeEnd, RangeOutcome, RangeOutcomes, RangeStop, Ranged, Stop};
use dcx_cache::{Session, session_outcomes};
use dcx_frac::Frac;
use dcx_graph::Reduced;
use dcx_linear::ParamForm;
use dcx_point::Setting;
use dcx_range::{range, ranged};
use dcx_shape::{Name, Place};
use dcx_steps::Steps;
use dcx_tree::Problem;
use std::alloc::{AllocError, Global};
use std::sync::ledger::Ledger;

/// Whether the parameter of this name has a range, by the program with affine coefficients that the session keeps, or what stands first
/// against it. Takes no memory.
pub fn has_range(session: &Session, name: &Name) -> Result<(), NotRanged>
    ensures { TellsRange session.now.problem name.now result }
{
    ranged(session.problem(), session.map(), name)
}

/// What is told of the parameter of this name for a program, with at most so many pivots.
#[derive(Clone, Copy)]
struct Ranging<'a> {
    name: &'a Name,
    limit: u64,
}

impl Question for Ranging<'_> {
    type Answer = Result<Ranged, RangeStop>;

    type Outcome = RangeOutcome;

    ghost can_ask = { λ q p. HasRange p q.name.now };

    ghost gives = { λ q. TellsOf q.name.now q.limit };

    ghost tells = { λ o e. range_end o.end ≡ e };

    ghost told_place = { λ o. o.place };

    fn ask(
        &self,
        alloc: Global,
        problem: &Problem,
        map: Option<&Reduced<ParamForm>>,
        program: &Reduced<Frac>,
        setting: &Setting,
    ) -> Result<Ranged, RangeStop> {
        match map {
            Some(map) => range(alloc, problem, map, program, setting, self.name, self.limit),
            None => unreachable!(),
        }
    }

    fn answered(&self, answer: Result<Ranged, RangeStop>) -> RangeOutcome {
        match answer {
            Ok(ranged) => RangeOutcome {
                end: RangeEnd::Ranged(ranged),
                place: None,
            },
            Err(stop) => RangeOutcome {
                end: RangeEnd::Range(stop),
                place: None,
            },
        }
    }

    fn stopped(&self, stop: Stop, place: Option<Place>) -> RangeOutcome {
        RangeOutcome {
            end: RangeEnd::Stop(stop),
            place,
        }
    }
}

/// What is told of the parameter of this name at each setting by a session whose problem has a range for it, in order, with at most
/// `limit` pivots each; or what stops it, with the place in the script of the node that a setting's stop names. No step is counted.
/// `AllocError` where there is no memory for the list; want of memory at a setting is that setting's stop.
pub fn range_outcomes<S: Ledger>(
    alloc: Global,
    session: &mut Session,
    settings: &[Setting],
    name: &Name,
    limit: u64,
    steps: &mut Steps<S>,
) -> Result<RangeOutcomes, AllocError>
    requires { HasRange session.old.problem name.now }
    ensures outcomes { IfOk result (AreRangeOutcomes session.old.problem name.now limit settings.now) }
    ensures counted { steps.new ≡ steps.old }
{
    let question = Ranging { name, limit };
    let asking = Asking {
        question: &question,
    };
    let outcomes = session_outcomes(alloc, &asking, session, settings, &mut (), steps)?;
    Ok(RangeOutcomes::from_vec(outcomes))
}
