//! How a problem is gathered: the part of a tree that its roots reach.
ghost use Rattle.std.specs.Prelude.{◌≡◌, ℕ, ◌*◌, List, map, filter, length, Ok, IfOk, IfErr, OnOk};
ghost use Rattle.std.specs.HashSet.{contains};
ghost use Rattle.dcx_point.specs.Pairs.{same_name};
ghost use Rattle.dcx_arena.specs.Gather.{IsGathered};
ghost use Rattle.dcx_arena.specs.Nodes.{positions, AreNodes};
ghost use Rattle.dcx_call.specs.Calls.{shape_of};
ghost use Rattle.dcx_tree.specs.Problems.{IsObjective, AreConstraints, sides_in, roots_of};
ghost use Rattle.dcx_tree.specs.Gather.{AreDeclarations, IsProblemOf, has_variable, has_parameter, demand_of, positions_of};

use crate::constraint::Constraint;
use crate::lists::{Constraints, Parameters, Variables};
use crate::problem::Problem;
use crate::roots::Roots;
use crate::tree::Tree;
use dcx_arena::{NodeId, TreeFault};
use dcx_call::{Call, Parameter, Variable, copy_parameter, copy_variable};
use dcx_shape::{Name, copy_name};
use std::alloc::{AllocError, Global};
use std::collections::HashSet;

/// The problem of some roots. Its nodes are those that the roots reach, numbered in the order in which they are first
/// finished: the objective first, then the left and the right side of each constraint, arguments before their call, from
/// left to right. Variables and parameters that aren't reached are dropped, and the others keep their order.
///
/// `Memory` is the only fault.
pub fn gather(alloc: Global, source: &Tree, roots: &Roots) -> Result<Problem, TreeFault>
    requires objective { IsObjective source.now roots.now.objective }
    requires constraints { AreConstraints source.now roots.now.constraints }
    requires declared { AreDeclarations source.now roots.now }
    ensures ok { IfOk result (IsProblemOf source.now roots.now) }
    ensures memory { IfErr result (λ e. e ≡ TreeFault.Memory) }
{
    let (tree, ends) = reached_part(alloc, source, roots)?;
    let objective = ends[0];
    let kept = kept(alloc, &tree, &ends[1..], roots);
    let (tree, (constraints, (variables, parameters))) = beside(tree, kept)?;
    Ok(Problem {
        tree,
        variables: Variables::from_vec(variables),
        parameters: Parameters::from_vec(parameters),
        sense: roots.sense,
        objective,
        objective_place: roots.objective_place,
        constraints: Constraints::from_vec(constraints),
    })
}

/// What is made, beside what was made before.
fn beside<T: Drop, U: Drop>(made: T, next: Result<U, AllocError>) -> Result<(T, U), AllocError>
    ensures made { IfOk result (λ r. r.0 ≡ made) }
    ensures next { IfOk result (λ r. next ≡ Ok r.1) }
{
    match next {
        Ok(next) => Ok((made, next)),
        Err(stop) => Err(stop),
    }
}

/// The part of a tree that the roots reach, and where the objective and the sides of the constraints stand in it.
fn reached_part(
    alloc: Global,
    source: &Tree,
    roots: &Roots,
) -> Result<(Tree, Vec<NodeId>), AllocError>
    requires objective { IsObjective source.now roots.now.objective }
    requires constraints { AreConstraints source.now roots.now.constraints }
    ensures gathered { IfOk result (λ r. IsGathered source.now (positions_of roots.now) r.0 (positions r.1.items)) }
    ensures whole { OnOk result (AreNodes shape_of source.now) }
    ensures nodes { IfOk result (λ r. AreNodes shape_of r.0) }
{
    let ids = root_ids(alloc, roots.objective, roots.constraints.as_slice())?;
    source.gathered(alloc, &ids)
}

/// The constraints with these nodes as their sides, and what is declared of what stands in a tree.
fn kept(
    alloc: Global,
    tree: &Tree,
    sides: &[NodeId],
    roots: &Roots,
) -> Result<(Vec<Constraint>, (Vec<Variable>, Vec<Parameter>)), AllocError>
    requires { length sides.now ≡ 2 * length roots.now.constraints }
    ensures demands { IfOk result (λ r. map demand_of r.0.items ≡ map demand_of roots.now.constraints) }
    ensures sides { IfOk result (λ r. sides_in r.0.items ≡ positions sides.now) }
    ensures variables { IfOk result (λ r. r.1.0.items ≡ filter (λ x. has_variable tree.now x.name) roots.now.variables) }
    ensures parameters { IfOk result (λ r. r.1.1.items ≡ filter (λ x. has_parameter tree.now x.name) roots.now.parameters) }
{
    let constraints = moved(alloc, roots.constraints.as_slice(), sides)?;
    beside(constraints, declared(alloc, tree, roots))
}

/// The declared variables and parameters that stand in a tree.
fn declared(
    alloc: Global,
    tree: &Tree,
    roots: &Roots,
) -> Result<(Vec<Variable>, Vec<Parameter>), AllocError>
    ensures variables { IfOk result (λ r. r.0.items ≡ filter (λ x. has_variable tree.now x.name) roots.now.variables) }
    ensures parameters { IfOk result (λ r. r.1.items ≡ filter (λ x. has_parameter tree.now x.name) roots.now.parameters) }
{
    let variables = reached_variables(alloc, tree, roots.variables.as_slice())?;
    beside(
        variables,
        reached_parameters(alloc, tree, roots.parameters.as_slice()),
    )
}

/// The objective, then the left and the right side of each constraint.
fn root_ids(
    alloc: Global,
    objective: NodeId,
    constraints: &[Constraint],
) -> Result<Vec<NodeId>, AllocError>
    ensures { IfOk result (λ v. positions v.items ≡ roots_of objective constraints.now) }
{
    let mut ids = vec![in alloc; objective]?;
    for constraint in constraints {
        ids.push(constraint.left)?;
        ids.push(constraint.right)?;
    }
    Ok(ids)
}

/// The constraints with these nodes as their sides, two for each.
fn moved(
    alloc: Global,
    constraints: &[Constraint],
    sides: &[NodeId],
) -> Result<Vec<Constraint>, AllocError>
    requires { length sides.now ≡ 2 * length constraints.now }
    ensures demands { IfOk result (λ v. map demand_of v.items ≡ map demand_of constraints.now) }
    ensures sides { IfOk result (λ v. sides_in v.items ≡ positions sides.now) }
{
    let mut moved = Vec::new(alloc);
    for (i, constraint) in constraints.iter().enumerate() {
        moved.push(Constraint {
            kind: constraint.kind,
            left: sides[2 * i],
            right: sides[2 * i + 1],
            shape: constraint.shape,
            place: constraint.place,
        })?;
    }
    Ok(moved)
}

/// The names of the variables that stand in a tree.
fn variable_names(alloc: Global, tree: &Tree) -> Result<HashSet<Name>, AllocError>
    ensures { IfOk result (λ s. (name : List ℕ) → contains same_name s name ≡ has_variable tree.now name) }
{
    let mut names = HashSet::new(alloc);
    for i in 0..tree.nodes() {
        if let Call::Variable(variable) = tree.call(NodeId(i)) {
            names.insert(copy_name(alloc, &variable.name)?)?;
        }
    }
    Ok(names)
}

/// The names of the parameters that stand in a tree.
fn parameter_names(alloc: Global, tree: &Tree) -> Result<HashSet<Name>, AllocError>
    ensures { IfOk result (λ s. (name : List ℕ) → contains same_name s name ≡ has_parameter tree.now name) }
{
    let mut names = HashSet::new(alloc);
    for i in 0..tree.nodes() {
        if let Call::Parameter(parameter) = tree.call(NodeId(i)) {
            names.insert(copy_name(alloc, &parameter.name)?)?;
        }
    }
    Ok(names)
}

/// The declared variables that stand in a tree.
fn reached_variables(
    alloc: Global,
    tree: &Tree,
    declared: &[Variable],
) -> Result<Vec<Variable>, AllocError>
    ensures { IfOk result (λ v. v.items ≡ filter (λ x. has_variable tree.now x.name) declared.now) }
{
    let names = variable_names(alloc, tree)?;
    let mut reached = Vec::new(alloc);
    for variable in declared {
        if names.contains(&variable.name) {
            reached.push(copy_variable(alloc, variable)?)?;
        }
    }
    Ok(reached)
}

/// The declared parameters that stand in a tree.
fn reached_parameters(
    alloc: Global,
    tree: &Tree,
    declared: &[Parameter],
) -> Result<Vec<Parameter>, AllocError>
    ensures { IfOk result (λ v. v.items ≡ filter (λ x. has_parameter tree.now x.name) declared.now) }
{
    let names = parameter_names(alloc, tree)?;
    let mut reached = Vec::new(alloc);
    for parameter in declared {
        if names.contains(&parameter.name) {
            reached.push(copy_parameter(alloc, parameter)?)?;
        }
    }
    Ok(reached)
}
