//! Where a point first leaves the domain of a problem.
ghost use Rattle.std.specs.Prelude.{◌<◌, ◌^◌, ◌↔◌, All, IsNone, IfSome, length};
ghost use Rattle.dcx_call.specs.Values.{given_by};
ghost use Rattle.dcx_tree.specs.Meaning.{IsInDomain, point_of};
ghost use Rattle.dcx_domain.specs.Entries.{LeavesDomainFirstAt};
ghost use Rattle.dcx_domain.specs.Points.{IsInside, IsFirstOutside};

use crate::array::outside;
use dcx_point::Point;
use dcx_tree::{Problem, Variable};

/// Where a point leaves the domain of a problem.
#[derive(Clone, Copy)]
pub struct Outside {
    /// The variable, by position in order of declaration.
    pub variable: u32,
    /// The entry, in row-major order.
    pub entry: u32,
}

/// The first variable, and its first entry, at which a point leaves the domain; `None` where it is in the domain. Numbers
/// that the point doesn't give count as 0.
pub fn point_outside(problem: &Problem, point: &Point) -> Option<Outside>
    ensures inside { IsNone result ↔ IsInDomain problem.now (point_of problem.now point.now) }
    ensures first { IfSome result (IsFirstOutside problem.now.variables point.now) }
{
    first_outside(problem.variables.as_slice(), point)
}

/// The first of some variables, and its first entry, at which a point leaves what is demanded.
pub(crate) fn first_outside(variables: &[Variable], point: &Point) -> Option<Outside>
    requires { length variables.now < 2 ^ 32 }
    ensures inside { IsNone result ↔ All (λ v. IsInside v point.now) variables.now }
    ensures first { IfSome result (IsFirstOutside variables.now point.now) }
{
    for k in 0..variables.len() {
        if let Some(entry) = given_outside(&variables[k], point) {
            return Some(Outside {
                variable: k as u32,
                entry,
            });
        }
    }
    None
}

/// The first entry at which the array that a point gives a variable leaves the variable's domain.
fn given_outside(variable: &Variable, point: &Point) -> Option<u32>
    ensures inside { IsNone result ↔ IsInside variable.now point.now }
    ensures first { IfSome result (LeavesDomainFirstAt variable.now (given_by point.now variable.now.name)) }
{
    match point.get(&variable.name) {
        Some(array) => outside(variable, array),
        None => None,
    }
}
