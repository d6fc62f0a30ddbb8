//! Variables whose entries are to be whole: how a problem that has one is refused where that isn't offered.
ghost use Rattle.std.specs.Prelude.{MatchOption};
ghost use Rattle.dcx_declared.specs.Whole.{HasNoWhole};
ghost use Rattle.dcx_top.specs.Whole.{IsRefusedForWhole};

use dcx_declared::first_whole;
use dcx_refusal::Refusal;
use dcx_tree::Problem;

/// The refusal of a script whose problem has a variable whose entries are to be whole, where the first one is declared.
pub(crate) fn refuse_whole(problem: &Problem) -> Option<Refusal>
    ensures { MatchOption result (HasNoWhole problem.now) (IsRefusedForWhole problem.now) }
{
    match first_whole(problem) {
        Some(place) => Some(Refusal::whole_variable(place)),
        None => None,
    }
}
