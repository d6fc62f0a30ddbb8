//! Whether a point and a ray lie in the domain of a problem.
ghost use Rattle.std.specs.Prelude.{◌≡◌, ◌<◌, length, Some, slice_get};
ghost use Rattle.dcx_frac.specs.Frac.{value};
ghost use Rattle.dcx_cert_sections.specs.Checks.{Checked};
ghost use Rattle.dcx_cert_check.specs.SingleChecks.{point_inside, ray_inside};
ghost use Rattle.dcx_call.specs.declared.attribute.Variable.{Variable};
ghost use Rattle.dcx_call.specs.Values.{given_by};

use crate::numbers::number_in;
use dcx_answer::CertFault;
use dcx_domain::{Outside, point_outside};
use dcx_frac::Frac;
use dcx_point::Point;
use dcx_tree::Problem;

/// Whether a point lies in the domain of a problem. `Domain` tells the first variable, and its first entry, at which it doesn't.
pub fn check_domain(problem: &Problem, point: &Point) -> Result<(), CertFault>
    ensures { Checked (point_inside problem.now point.now) result }
{
    match point_outside(problem, point) {
        None => Ok(()),
        Some(outside) => Err(CertFault::Domain {
            variable: outside.variable,
            entry: outside.entry,
            value: number_outside(problem, point, outside),
        }),
    }
}

/// Whether a ray lies in the domain of a problem. `RayDomain` tells the first variable, and its first entry, at which it doesn't.
pub fn check_ray_domain(problem: &Problem, ray: &Point) -> Result<(), CertFault>
    ensures { Checked (ray_inside problem.now ray.now) result }
{
    match point_outside(problem, ray) {
        None => Ok(()),
        Some(outside) => Err(CertFault::RayDomain {
            variable: outside.variable,
            entry: outside.entry,
            value: number_outside(problem, ray, outside),
        }),
    }
}

/// The number at which a point leaves the domain.
fn number_outside(problem: &Problem, point: &Point, outside: Outside) -> Frac
    requires { outside.variable < length problem.now.variables }
    ensures { (v : Variable) → slice_get problem.now.variables outside.variable ≡ Some v → value result ≡ given_by point.now v.name outside.entry }
{
    let variables = problem.variables.as_slice();
    number_in(
        point.get(&variables[outside.variable as usize].name),
        outside.entry,
    )
}
