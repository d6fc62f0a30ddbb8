//! Which parameters have a range.
ghost use Rattle.std.specs.Prelude.{◌≡◌, Option, option_copied, IfOk, IfErr};
ghost use Rattle.dcx_linear.specs.declared.param_form.ParamForm.{ParamForm};
ghost use Rattle.dcx_graph.specs.Program.{Program};
ghost use Rattle.dcx_range.specs.Parameters.{scales, IsFaultOf, program_in, IsTold};
ghost use Rattle.dcx_right.specs.Ranges.{place_of, IsNumber};

use crate::standing::{scales_row, scales_unknown};
use dcx_answer::NotRanged;
use dcx_graph::Reduced;
use dcx_linear::ParamForm;
use dcx_shape::{Name, Sides};
use dcx_tree::{Parameter, Problem};

/// The position of the parameter with this name, in order of declaration.
pub(crate) fn place_of(parameters: &[Parameter], name: &Name) -> Option<usize>
    ensures { result ≡ place_of parameters.now name.now }
{
    parameters.iter().position(|q| *name == q.name)
}

/// The position of the parameter with this name, which is a number, in order of declaration.
fn number_at(problem: &Problem, name: &Name) -> Result<usize, NotRanged>
    ensures found { IfOk result (λ k. (n : IsNumber problem.now name.now) × (n.at ≡ k)) }
    ensures fault { (o : Option (Program ParamForm)) → IfErr result (IsFaultOf problem.now o name.now) }
{
    let parameters = problem.parameters.as_slice();
    let Some(position) = place_of(parameters, name) else {
        return Err(NotRanged::Unknown);
    };
    let parameter = &parameters[position];
    match parameter.shape.sides() {
        Sides::Scalar => Ok(position),
        Sides::Vector(_) => Err(NotRanged::Shape),
        Sides::Matrix(_, _) => Err(NotRanged::Shape),
    }
}

/// Whether the parameter at this position stands in the coefficient of an unknown.
fn scales(map: &Reduced<ParamForm>, position: usize) -> bool
    ensures { result ≡ scales position map.now.program }
{
    let rows = map.rows();
    scales_row(rows.rows.as_slice(), position) || scales_unknown(&rows.objective, position)
}

/// Whether the parameter with this name has a range: it is a number of the problem, and stands in no coefficient of an unknown in
/// the rows of the program with affine coefficients, nor in what is to be small.
///
/// The first of these in this order stands against it: `Unknown` where the problem reaches no such parameter, `Shape` where its
/// shape isn't that of a number, `Map` where there is no program with affine coefficients, `Coefficient` where the parameter
/// stands in a coefficient. Takes no memory.
pub fn ranged(
    problem: &Problem,
    map: Option<&Reduced<ParamForm>>,
    name: &Name,
) -> Result<(), NotRanged>
    ensures { IsTold problem.now (program_in (option_copied map.entry)) name.now result }
{
    let position = match number_at(problem, name) {
        Ok(position) => position,
        Err(fault) => return Err(fault),
    };
    match map {
        None => Err(NotRanged::Map),
        Some(map) => {
            if scales(map, position) {
                Err(NotRanged::Coefficient)
            } else {
                Ok(())
            }
        }
    }
}
