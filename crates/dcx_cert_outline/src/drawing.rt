//! Draws the outline of a problem.
ghost use Rattle.std.specs.Prelude.{◌≡◌, map, IfOk};
ghost use Rattle.dcx_cert_sections.specs.Outlines.{shown};
ghost use Rattle.dcx_cert_outline.specs.Drawn.{problem_outline};

use crate::atoms::atoms_of;
use crate::fixed::fixed_nodes;
use dcx_cert_sections::{Outline, Shown};
use dcx_shape::{Shape, copy_name};
use dcx_tree::{Constraint, Parameter, Problem, Variable};
use std::alloc::{AllocError, Global};

/// The names and the shapes of variables.
fn variables_of(alloc: Global, variables: &[Variable]) -> Result<Vec<Shown>, AllocError>
    ensures { IfOk result (λ v. map shown v.items ≡ map (λ x. (x.name, x.shape)) variables.now) }
{
    let mut list = Vec::new(alloc);
    for variable in variables {
        list.push(Shown {
            name: copy_name(alloc, &variable.name)?,
            shape: variable.shape,
        })?;
    }
    Ok(list)
}

/// The names and the shapes of parameters.
fn parameters_of(alloc: Global, parameters: &[Parameter]) -> Result<Vec<Shown>, AllocError>
    ensures { IfOk result (λ v. map shown v.items ≡ map (λ x. (x.name, x.shape)) parameters.now) }
{
    let mut list = Vec::new(alloc);
    for parameter in parameters {
        list.push(Shown {
            name: copy_name(alloc, &parameter.name)?,
            shape: parameter.shape,
        })?;
    }
    Ok(list)
}

/// The shapes of constraints.
fn shapes_of(alloc: Global, constraints: &[Constraint]) -> Result<Vec<Shape>, AllocError>
    ensures { IfOk result (λ v. v.items ≡ map (λ c. c.shape) constraints.now) }
{
    let mut list = Vec::new(alloc);
    for constraint in constraints {
        list.push(constraint.shape)?;
    }
    Ok(list)
}

/// The outline of a problem. Fails only for want of memory.
pub fn outline_of_problem(alloc: Global, problem: &Problem) -> Result<Outline, AllocError>
    ensures { IfOk result (λ o. o ≡ problem_outline problem.now) }
{
    let fixed = fixed_nodes(alloc, problem)?;
    let atoms = atoms_of(alloc, problem, &fixed)?;
    let constraints = shapes_of(alloc, problem.constraints.as_slice())?;
    let parameters = parameters_of(alloc, problem.parameters.as_slice())?;
    let variables = variables_of(alloc, problem.variables.as_slice())?;
    Ok(Outline::new(parameters, variables, constraints, atoms))
}
