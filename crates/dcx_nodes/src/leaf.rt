//! The entries of variables, and of parameters that are reduced.
ghost use Rattle.std.specs.Prelude.{◌≡◌, ◌↔◌, IsTrue, true, List, length, map, Some, IfOk};
ghost use Rattle.dcx_arena.specs.Nodes.{call_at, sides_at};
ghost use Rattle.dcx_shape.specs.Sides.{entries_of};
ghost use Rattle.dcx_call.specs.declared.call.Call.TheVariants as calls;
ghost use Rattle.dcx_tree.specs.Nodes.{number_in as number_of_name};
ghost use Rattle.dcx_unknowns.specs.Layout.{marked};
ghost use Rattle.dcx_linear.specs.declared.form.Form.{Form};
ghost use Rattle.dcx_entries.specs.Forming.{IsFormed};
ghost use Rattle.dcx_nodes.specs.Formed.{ReducedGives};
ghost use Rattle.dcx_nodes.specs.Given.{IsReady};

use crate::given::Given;
use dcx_atom::ValueStop;
use dcx_entries::{EntryList, parameter_entries, variable_entries};
use dcx_linear::Coef;
use dcx_shape::Name;
use dcx_tree::{NodeId, Parameter, Variable};
use dcx_unknowns::entry_unknowns;
use std::alloc::Global;

/// Whether two names are the same.
fn same_name(a: &Name, b: &Name) -> bool
    ensures { IsTrue result ↔ (a.now ≡ b.now) }
{
    a == b
}

/// The position of a name among those of variables, and their number where it isn't among them.
fn variable_position(variables: &[Variable], name: &Name) -> usize
    ensures { result ≡ number_of_name (map (λ v. v.name) variables.now) name.now }
{
    'variables: for (position, variable) in variables.iter().enumerate() {
        if same_name(&variable.name, name) {
            return position;
        }
    }
    variables.len()
}

/// The position of a name among those of parameters, and their number where it isn't among them.
fn parameter_position(parameters: &[Parameter], name: &Name) -> usize
    ensures { result ≡ number_of_name (map (λ q. q.name) parameters.now) name.now }
{
    'parameters: for (position, parameter) in parameters.iter().enumerate() {
        if same_name(&parameter.name, name) {
            return position;
        }
    }
    parameters.len()
}

/// The entries of a variable: its unknowns. Only memory may be wanting.
pub(crate) fn variable_node<C: Coef>(
    alloc: Global,
    given: &Given,
    node: NodeId,
    variable: &Variable,
) -> Result<EntryList<C>, ValueStop>
    requires ready { IsReady C.can_read given.now.problem.now given.now.reduced.now given.now.fixed.now given.now.setting.now given.now.firsts.now }
    requires call { call_at given.now.problem.now.tree node.0 ≡ Some (calls.Variable variable.now) }
    ensures count { IfOk result (λ es. length es ≡ entries_of (sides_at given.now.problem.now.tree node.0)) }
    ensures entries { (forms : List (List (Form C)))
        → IsFormed result (ReducedGives C.of_number C.number_of C.sum_gives C.change_gives C.parameter_gives
        given.now.problem.now given.now.setting.now given.now.reduced.now given.now.fixed.now forms node.0) }
{
    let position = variable_position(given.problem.variables.as_slice(), &variable.name);
    let unknowns = match entry_unknowns(alloc, given.firsts[position], variable) {
        Ok(unknowns) => unknowns,
        Err(_) => return Err(ValueStop::Memory),
    };
    match variable_entries(alloc, &unknowns) {
        Ok(entries) => Ok(entries),
        Err(_) => Err(ValueStop::Memory),
    }
}

/// The entries of a parameter that is reduced. Only memory may be wanting.
pub(crate) fn parameter_node<C: Coef>(
    alloc: Global,
    given: &Given,
    node: NodeId,
    parameter: &Parameter,
) -> Result<EntryList<C>, ValueStop>
    requires ready { IsReady C.can_read given.now.problem.now given.now.reduced.now given.now.fixed.now given.now.setting.now given.now.firsts.now }
    requires call { call_at given.now.problem.now.tree node.0 ≡ Some (calls.Parameter parameter.now) }
    requires reduced { marked given.now.reduced.now node.0 ≡ true }
    ensures count { IfOk result (λ es. length es ≡ entries_of (sides_at given.now.problem.now.tree node.0)) }
    ensures entries { (forms : List (List (Form C)))
        → IsFormed result (ReducedGives C.of_number C.number_of C.sum_gives C.change_gives C.parameter_gives
        given.now.problem.now given.now.setting.now given.now.reduced.now given.now.fixed.now forms node.0) }
{
    let position = parameter_position(given.problem.parameters.as_slice(), &parameter.name);
    let size = parameter.shape.size();
    match parameter_entries(alloc, position as u32, &parameter.name, size, given.setting) {
        Ok(entries) => Ok(entries),
        Err(_) => Err(ValueStop::Memory),
    }
}
