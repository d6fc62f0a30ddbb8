//! How many there are of what a problem has, and how many entries they have.
ghost use Rattle.std.specs.Prelude.{◌≡◌, ◌<◌, ◌^◌, length};
ghost use Rattle.std.specs.List.{sum_by};
ghost use Rattle.dcx_front.specs.Checks.{size_of};

use dcx_tree::{Constraint, Parameter, Variable};

/// How many entries variables have.
pub(crate) fn variable_entries(variables: &[Variable]) -> u64
    requires { length variables.now < 2 ^ 32 }
    ensures { result ≡ sum_by (λ v. size_of v.shape) variables.now }
{
    variables.iter().map(|v| u64::from(v.shape.size())).sum()
}

/// How many entries parameters have.
pub(crate) fn parameter_entries(parameters: &[Parameter]) -> u64
    requires { length parameters.now < 2 ^ 32 }
    ensures { result ≡ sum_by (λ q. size_of q.shape) parameters.now }
{
    parameters.iter().map(|q| u64::from(q.shape.size())).sum()
}

/// How many entries constraints have.
pub(crate) fn constraint_entries(constraints: &[Constraint]) -> u64
    requires { length constraints.now < 2 ^ 32 }
    ensures { result ≡ sum_by (λ k. size_of k.shape) constraints.now }
{
    constraints.iter().map(|k| u64::from(k.shape.size())).sum()
}
