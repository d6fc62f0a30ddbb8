//! Variables whose entries are to be whole: whether a problem has one, and where the first one stands.
ghost use Rattle.std.specs.Prelude.{◌↔◌, ◌≢◌, ◌<◌, length, IsTrue, MatchOption};
ghost use Rattle.dcx_declared.specs.Whole.{IsWholeAt, HasNoWhole, HasWhole, IsFirstWhole, StandsFirstWhole};

use crate::stands::place_of;
use dcx_shape::Place;
use dcx_tree::{Problem, Variable, Whole};

/// Whether a variable's entries are to be whole.
fn is_marked(variable: &Variable) -> bool
    ensures { IsTrue result ↔ (variable.now.whole ≢ Whole.Not) }
{
    !matches!(variable.whole, Whole::Not)
}

/// Whether those of the variable at this position are, in order of declaration.
fn is_whole(problem: &Problem, k: usize) -> bool
    requires { k < length problem.now.variables }
    ensures { IsTrue result ↔ IsWholeAt problem.now k }
{
    is_marked(&problem.variables.as_slice()[k])
}

/// The position of the first such variable.
fn first_position(problem: &Problem) -> Option<usize>
    ensures { MatchOption result (HasNoWhole problem.now) (IsFirstWhole problem.now) }
{
    for k in 0..problem.variables.as_slice().len() {
        if is_whole(problem, k) {
            return Some(k);
        }
    }
    None
}

/// Whether a problem has such a variable.
pub fn has_whole(problem: &Problem) -> bool
    ensures { IsTrue result ↔ HasWhole problem.now }
{
    matches!(first_position(problem), Some(_))
}

/// Where the first such variable stands, which is at this position.
fn whole_place(problem: &Problem, k: usize) -> Place
    requires { IsFirstWhole problem.now k }
    ensures { StandsFirstWhole problem.now result }
{
    let variable = &problem.variables.as_slice()[k];
    place_of(problem, &variable.name)
}

/// Where the first variable stands whose entries are to be whole, in order of declaration; `None` where the problem has none.
pub fn first_whole(problem: &Problem) -> Option<Place>
    ensures { MatchOption result (HasNoWhole problem.now) (StandsFirstWhole problem.now) }
{
    let k = first_position(problem)?;
    Some(whole_place(problem, k))
}
