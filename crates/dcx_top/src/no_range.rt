//! A script whose problem has no range for the parameter that is asked for: it is refused.
ghost use Rattle.std.specs.Prelude.{MatchOption};
ghost use Rattle.dcx_outcomes.specs.Ranges.{HasRange, LacksRange};
ghost use Rattle.dcx_top.specs.NoRange.{IsPlaceOf, IsRefusedForRange};

use dcx_answer::NotRanged;
use dcx_declared::place_of;
use dcx_outcomes::{Session, has_range};
use dcx_refusal::Refusal;
use dcx_shape::{Name, Place};
use dcx_tree::Problem;

/// Where a script is refused for what stands against the range of the parameter.
fn fault_place(problem: &Problem, name: &Name, fault: NotRanged) -> Place
    requires { LacksRange problem.now name.now fault }
    ensures { IsPlaceOf fault problem.now name.now result }
{
    match fault {
        NotRanged::Unknown => Place { line: 1, column: 1 },
        NotRanged::Shape => place_of(problem, name),
        NotRanged::Map => place_of(problem, name),
        NotRanged::Coefficient => place_of(problem, name),
    }
}

/// The refusal of a script for what stands against the range of the parameter.
fn refused(problem: &Problem, name: &Name, fault: NotRanged) -> Refusal
    requires { LacksRange problem.now name.now fault }
    ensures { IsRefusedForRange problem.now name.now result }
{
    Refusal::not_ranged(fault_place(problem, name, fault), fault)
}

/// The refusal of a script whose problem has no range for the parameter of this name.
pub(crate) fn refuse_range(session: &Session, name: &Name) -> Option<Refusal>
    ensures { MatchOption result (HasRange session.now.problem name.now) (IsRefusedForRange session.now.problem name.now) }
{
    match has_range(session, name) {
        Ok(()) => None,
        Err(fault) => Some(refused(session.problem(), name, fault)),
    }
}
