//! The problem that a script stands for, and the settings of its solves, as lines.

use crate::calls::{push_call, push_name, push_numbers, push_shape};
use dcx_front::{Work, elaborate};
use dcx_point::Setting;
use dcx_read::parse;
use dcx_shape::Place;
use dcx_tree::{Constraint, Kind, NodeId, Parameter, Problem, Sense, Tree, Variable};
use std::alloc::{AllocError, Global};

/// Adds ` at LINE:COLUMN` and a line end.
fn push_place(text: &mut String, place: Place) -> Result<(), AllocError> {
    let Place { line, column } = place;
    write!(text, " at {line}:{column}\n")
}

/// Adds the arguments of a node, where it has any, and its place.
fn push_args(text: &mut String, args: &[NodeId], place: Place) -> Result<(), AllocError> {
    if !args.is_empty() {
        text.push_str(" of")?;
    }
    for arg in args {
        let arg = arg.0;
        write!(text, " {arg}")?;
    }
    push_place(text, place)
}

/// Adds a node: its number, its call, its shape, its arguments and its place.
fn push_node(alloc: Global, text: &mut String, tree: &Tree, number: u32) -> Result<(), AllocError> {
    if number >= tree.nodes() {
        return Ok(());
    }
    let id = NodeId(number);
    write!(text, "node {number} ")?;
    push_call(text, tree.call(id))?;
    push_shape(text, tree.shape(id))?;
    let args = tree.args(alloc, id)?;
    push_args(text, &args, tree.place(id))
}

/// Adds a constraint: the nodes of its sides, their shape and its place.
fn push_constraint(text: &mut String, constraint: &Constraint) -> Result<(), AllocError> {
    let word = match constraint.kind {
        Kind::AtMost => "at_most",
        Kind::Equal => "equal",
    };
    let left = constraint.left.0;
    let right = constraint.right.0;
    write!(text, "{word} {left} {right}")?;
    push_shape(text, constraint.shape)?;
    push_place(text, constraint.place)
}

/// Adds the names of the variables.
fn push_variables(text: &mut String, variables: &[Variable]) -> Result<(), AllocError> {
    text.push_str("variables")?;
    for variable in variables {
        push_name(text, &variable.name)?;
    }
    text.push_str("\n")
}

/// Adds the names of the parameters.
fn push_parameters(text: &mut String, parameters: &[Parameter]) -> Result<(), AllocError> {
    text.push_str("parameters")?;
    for parameter in parameters {
        push_name(text, &parameter.name)?;
    }
    text.push_str("\n")
}

/// Adds the objective: its sense, its node and its place.
fn push_objective(text: &mut String, problem: &Problem) -> Result<(), AllocError> {
    let word = match problem.sense {
        Sense::Minimize => "minimize",
        Sense::Maximize => "maximize",
    };
    let node = problem.objective.0;
    write!(text, "{word} {node}")?;
    push_place(text, problem.objective_place)
}

/// Adds a problem: what it is over, its nodes, its objective and its constraints.
fn push_problem(alloc: Global, text: &mut String, problem: &Problem) -> Result<(), AllocError> {
    push_variables(text, problem.variables.as_slice())?;
    push_parameters(text, problem.parameters.as_slice())?;
    for number in 0..problem.tree.nodes() {
        push_node(alloc, text, &problem.tree, number)?;
    }
    push_objective(text, problem)?;
    for constraint in problem.constraints.as_slice() {
        push_constraint(text, constraint)?;
    }
    Ok(())
}

/// Adds the name at a position, and its array.
fn push_value(text: &mut String, setting: &Setting, i: usize) -> Result<(), AllocError> {
    let Some(name) = setting.name_at(i) else {
        return Ok(());
    };
    push_name(text, name)?;
    match setting.get(name) {
        Some(array) => {
            push_shape(text, array.shape)?;
            push_numbers(text, " =", array.entries.as_slice())
        }
        None => Ok(()),
    }
}

/// Adds a word and the values of the parameters.
fn push_setting(text: &mut String, word: &str, setting: &Setting) -> Result<(), AllocError> {
    text.push_str(word)?;
    for i in 0..setting.len() {
        text.push_str(if i > 0 { ";" } else { "" })?;
        push_value(text, setting, i)?;
    }
    text.push_str("\n")
}

/// Adds a work: its problem, the setting of each solve, and the last setting.
fn push_work(alloc: Global, text: &mut String, work: &Work) -> Result<(), AllocError> {
    push_problem(alloc, text, &work.problem)?;
    for setting in work.events.as_slice() {
        push_setting(text, "solve", setting)?;
    }
    push_setting(text, "end", &work.last)
}

/// The lines of a work, which is no longer needed.
fn lines_of(alloc: Global, work: Work) -> Result<Option<String>, AllocError> {
    let mut text = String::new(alloc);
    let pushed = push_work(alloc, &mut text, &work);
    drop(work);
    pushed?;
    Ok(Some(text))
}

/// The lines of the problem of the script that the bytes spell, and of the settings of its solves; `None` where the bytes have a
/// fault. `AllocError` where there is no memory for the lines.
pub fn problem_lines(alloc: Global, bytes: &[u8]) -> Result<Option<String>, AllocError> {
    let Ok(script) = parse(alloc, bytes) else {
        return Ok(None);
    };
    let work = elaborate(alloc, &script);
    drop(script);
    match work {
        Ok(work) => lines_of(alloc, work),
        Err(_) => Ok(None),
    }
}
