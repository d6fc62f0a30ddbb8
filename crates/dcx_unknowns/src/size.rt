//! How many rows and columns a program has.
ghost use Rattle.std.specs.Prelude.{◌≡◌, length, IfOk, sum_by};
ghost use Rattle.dcx_linear.specs.Size.{columns_for, capped};
ghost use Rattle.dcx_unknowns.specs.Unknowns.{own_kinds, variable_kinds};
ghost use Rattle.dcx_unknowns.specs.Layout.{marked, constraint_rows, constraint_slacks, rows_with, columns_with};

use crate::graph::graph_size;
use crate::own::{kind_of, own_count};
use dcx_tree::{Constraint, Kind, Problem, Variable};
use std::alloc::{AllocError, Global};

/// How many rows and columns there are, each up to 4,294,967,295.
#[derive(Clone, Copy)]
pub(crate) struct Size {
    pub rows: u32,
    pub columns: u32,
}

/// The columns of the unknowns of variables.
fn variable_columns(variables: &[Variable]) -> u32
    ensures { result ≡ capped (sum_by columns_for (variable_kinds variables.now)) }
{
    let mut count = 0u32;
    'variables: for variable in variables {
        count = count.saturating_add(own_columns(variable));
    }
    count
}

/// The columns of the unknowns of one variable.
fn own_columns(variable: &Variable) -> u32
    ensures { result ≡ sum_by columns_for (own_kinds variable.now) }
{
    own_count(variable) * kind_of(variable.demanded()).columns()
}

/// The rows of constraints.
fn constraint_rows(constraints: &[Constraint]) -> u32
    ensures { result ≡ capped (sum_by constraint_rows constraints.now) }
{
    let mut count = 0u32;
    'constraints: for constraint in constraints {
        count = count.saturating_add(constraint.shape.size());
    }
    count
}

/// The slacks of a constraint.
fn slacks(constraint: &Constraint) -> u32
    ensures { result ≡ constraint_slacks constraint.now }
{
    match constraint.kind {
        Kind::AtMost => constraint.shape.size(),
        Kind::Equal => 0,
    }
}

/// The slacks of constraints.
fn constraint_slacks(constraints: &[Constraint]) -> u32
    ensures { result ≡ capped (sum_by constraint_slacks constraints.now) }
{
    let mut count = 0u32;
    'constraints: for constraint in constraints {
        count = count.saturating_add(slacks(constraint));
    }
    count
}

/// How many rows and columns a program has, where it is told which nodes are reduced.
pub(crate) fn program_size(
    alloc: Global,
    problem: &Problem,
    reduced: &[bool],
) -> Result<Size, AllocError>
    requires { length reduced.now ≡ length problem.now.tree }
    ensures rows { IfOk result (λ s. s.rows ≡ capped (rows_with problem.now (marked reduced.now))) }
    ensures columns { IfOk result (λ s. s.columns ≡ capped (columns_with problem.now (marked reduced.now))) }
{
    let graphs = graph_size(alloc, problem, reduced)?;
    let constraints = problem.constraints.as_slice();
    let rows = constraint_rows(constraints).saturating_add(graphs.rows);
    let unknowns = variable_columns(problem.variables.as_slice()).saturating_add(graphs.columns);
    let slacks = constraint_slacks(constraints).saturating_add(graphs.rows);
    Ok(Size {
        rows,
        columns: unknowns.saturating_add(slacks),
    })
}
