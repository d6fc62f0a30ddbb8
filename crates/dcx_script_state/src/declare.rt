//! Declarations of variables and parameters, and the values of parameters.
ghost use Rattle.std.specs.Prelude.{◌≡◌, true, false, not, ◌&&◌, ◌||◌, [], ◌∷◌, ◌++◌, option_map, IfOk};
ghost use Rattle.std.specs.Option.{option_copied};
ghost use Rattle.dcx_call.specs.declared.call.Call.TheVariants as calls;
ghost use Rattle.dcx_script_values.specs.declared.fault.ElabFault.TheVariants as faults;
ghost use Rattle.dcx_script_values.specs.Values.{State as MeantState, and_then, unless};
ghost use Rattle.dcx_script_values.specs.Kinds.{is_square};
ghost use Rattle.dcx_script_values.specs.Nodes.{push};
ghost use Rattle.dcx_script_values.specs.Meant.{meant};
ghost use Rattle.dcx_script_values.specs.View.{extent_sides, read_as, Gives};
ghost use Rattle.dcx_script_state.specs.Attributes.{may_stand};
ghost use Rattle.dcx_script_state.specs.Declarations.{
  is_declared,
  declared_shape,
  variable_with,
  parameter_with,
  declare_variable,
  declare_parameter,
  set_value,
  first_value,
  set_first,
  parameter_of,
  give,
};

use crate::flags::Flags;
use crate::problem::put_copy;
use crate::state::State;
use dcx_arena::{Count, NodeId};
use dcx_atom::Array;
use dcx_call::{Call, Parameter, Variable};
use dcx_script_values::{ElabFault, Extent, Reading, Value, numbers_read, too_many};
use dcx_shape::{Name, Place, Shape, copy_name};
use std::alloc::{AllocError, Global};
use std::rc::Rc;

/// The most nodes of a tree.
const MOST_NODES: u32 = 20_000;

/// The variable of this name.
fn variable(alloc: Global, name: &Name, shape: Shape, flags: Flags) -> Result<Variable, AllocError>
    ensures { IfOk result (λ v. v ≡ variable_with name.now shape flags) }
{
    let name = copy_name(alloc, name)?;
    Ok(Variable {
        name,
        shape,
        attribute: flags.attribute(),
        whole: flags.whole(),
    })
}

/// The parameter of this name.
fn parameter(
    alloc: Global,
    name: &Name,
    shape: Shape,
    flags: Flags,
) -> Result<Parameter, AllocError>
    ensures { IfOk result (λ p. p ≡ parameter_with name.now shape flags.nonneg flags.nonpos) }
{
    let name = copy_name(alloc, name)?;
    Ok(Parameter {
        name,
        shape,
        attribute: flags.sign(),
    })
}

/// The first value of a parameter, where one is given.
fn first_value(place: Place, value: Option<Reading>) -> Result<Option<Rc<Array>>, ElabFault>
    ensures { (s : MeantState) → Gives (option_map (λ a. a.value)) result s (first_value place (option_map read_as value) s) }
{
    match value {
        Some(reading) => Ok(Some(numbers_read(place, reading)?)),
        None => Ok(None),
    }
}

impl State {
    /// The shape that is declared. Where it has too many entries, it is refused as the node that it would make: the nodes
    /// first, and then the entries of the shape alone.
    fn declared_shape(&self, place: Place, extent: Extent) -> Result<Shape, ElabFault>
        ensures { Gives (λ s. s) result self.now (declared_shape place (extent_sides extent) self.now) }
    {
        if let Some(shape) = extent.shape() {
            return Ok(shape);
        }
        let nodes = self.tree.nodes();
        if nodes >= MOST_NODES {
            return Err(too_many(place, Count::Nodes, nodes as u128 + 1));
        }
        Err(too_many(place, Count::Entries, extent.entries()))
    }

    /// A variable of this name, whose node comes to the tree at once.
    ///
    /// `BadArgument` where the attributes exclude each other or the name is declared, `ShapeClash` where a matrix must be
    /// square and isn't, `TooMany` where there would be too many nodes or entries.
    pub fn declare_variable(
        &mut self,
        place: Place,
        name: &Name,
        extent: Extent,
        flags: Flags,
    ) -> Result<Value, ElabFault>
        ensures { Gives meant result self.new (declare_variable place name.now (extent_sides extent) flags self.old) }
    {
        self.test_variable(place, name, extent, flags)?;
        let node = self.new_variable(place, name, extent, flags)?;
        Ok(Value::Expression(node))
    }

    /// Refuses a variable whose attributes exclude each other, whose name is declared, or which must be square and isn't.
    fn test_variable(
        &self,
        place: Place,
        name: &Name,
        extent: Extent,
        flags: Flags,
    ) -> Result<(), ElabFault>
        ensures { Gives (λ _. tt) result self.now (and_then (unless (faults.BadArgument place) (may_stand flags && not (is_declared name.now self.now)) self.now)
            (λ _. unless (faults.ShapeClash place) (not (flags.symmetric || flags.diag) || is_square (extent_sides extent)))) }
    {
        if !flags.may_stand() || self.declared.has(name) {
            return Err(ElabFault::BadArgument(place));
        }
        if (flags.symmetric || flags.diag) && !extent.is_square() {
            return Err(ElabFault::ShapeClash(place));
        }
        Ok(())
    }

    /// The node of a new variable, which is listed first.
    fn new_variable(
        &mut self,
        place: Place,
        name: &Name,
        extent: Extent,
        flags: Flags,
    ) -> Result<NodeId, ElabFault>
        requires new { is_declared name.now self.old ≡ false }
        requires square { (flags.symmetric || flags.diag) ≡ true → is_square (extent_sides extent) ≡ true }
        ensures { Gives (λ i. i.0) result self.new (and_then (declared_shape place (extent_sides extent) self.old) (λ shape s. push place
            (calls.Variable (variable_with name.now shape flags)) [] (record s { variables = s.variables ++ variable_with name.now shape flags ∷ [] }))) }
    {
        let shape = self.declared_shape(place, extent)?;
        let listed = variable(self.alloc, name, shape, flags)?;
        self.declared.add_variable(self.alloc, listed)?;
        let made = variable(self.alloc, name, shape, flags)?;
        self.put(place, Call::Variable(made), &[])
    }

    /// A parameter of this name, whose node comes to the tree at once, with its first value, where one is given.
    ///
    /// `BadArgument` where the attributes exclude each other or the name is declared; `NotOffered` where an attribute is
    /// named that a parameter can't have, which `unoffered` tells; the fault of its value; `TooMany` where there would be
    /// too many nodes or entries.
    pub fn declare_parameter(
        &mut self,
        place: Place,
        name: &Name,
        extent: Extent,
        flags: Flags,
        unoffered: bool,
        value: Option<Reading>,
    ) -> Result<Value, ElabFault>
        ensures { Gives meant result self.new (declare_parameter place name.now (extent_sides extent) flags.nonneg flags.nonpos unoffered (option_map read_as value) self.old) }
    {
        self.test_parameter(place, name, flags, unoffered)?;
        let first = first_value(place, value)?;
        let node = self.new_parameter(place, name, extent, flags)?;
        self.set_first(name, first)?;
        Ok(Value::Expression(node))
    }

    /// Refuses a parameter whose attributes exclude each other or aren't offered, or whose name is declared.
    fn test_parameter(
        &self,
        place: Place,
        name: &Name,
        flags: Flags,
        unoffered: bool,
    ) -> Result<(), ElabFault>
        ensures { Gives (λ _. tt) result self.now (and_then (unless (faults.BadArgument place)
            (not (flags.nonneg && flags.nonpos) && not (is_declared name.now self.now)) self.now) (λ _. unless (faults.NotOffered place) (not unoffered))) }
    {
        if (flags.nonneg && flags.nonpos) || self.declared.has(name) {
            return Err(ElabFault::BadArgument(place));
        }
        if unoffered {
            return Err(ElabFault::NotOffered(place));
        }
        Ok(())
    }

    /// The node of a new parameter, which is listed first.
    fn new_parameter(
        &mut self,
        place: Place,
        name: &Name,
        extent: Extent,
        flags: Flags,
    ) -> Result<NodeId, ElabFault>
        requires { is_declared name.now self.old ≡ false }
        ensures { Gives (λ i. i.0) result self.new
            (and_then (declared_shape place (extent_sides extent) self.old) (λ shape s. push place (calls.Parameter (parameter_with name.now shape flags.nonneg flags.nonpos))
            [] (record s { parameters = s.parameters ++ parameter_with name.now shape flags.nonneg flags.nonpos ∷ [] }))) }
    {
        let shape = self.declared_shape(place, extent)?;
        let listed = parameter(self.alloc, name, shape, flags)?;
        self.declared.add_parameter(self.alloc, listed)?;
        let made = parameter(self.alloc, name, shape, flags)?;
        self.put(place, Call::Parameter(made), &[])
    }

    /// Gives a parameter its first value, where there is one.
    fn set_first(&mut self, name: &Name, first: Option<Rc<Array>>) -> Result<(), ElabFault>
        ensures { Gives (λ _. tt) result self.new (set_first name.now (option_map (λ a. a.value) first) self.old) }
    {
        match first {
            Some(array) => self.set_value(name, &array),
            None => Ok(()),
        }
    }

    /// Gives a parameter a value.
    fn set_value(&mut self, name: &Name, array: &Array) -> Result<(), ElabFault>
        ensures { Gives (λ _. tt) result self.new (set_value name.now array.now self.old) }
    {
        put_copy(self.alloc, &mut self.setting, name, array)?;
        Ok(())
    }

    /// The name of the parameter whose node a value is.
    fn parameter_of(&self, value: &Value) -> Option<&Name>
        ensures { option_copied result ≡ parameter_of self.now.nodes (meant value.now) }
    {
        let Value::Expression(node) = value else {
            return None;
        };
        match self.call(*node)? {
            Call::Parameter(parameter) => Some(&parameter.name),
            _ => None,
        }
    }

    /// `p.value = e`, whose `value` stands at the place. `BadArgument` where `p` is no parameter or `e` no numbers,
    /// `EmptyResult` where there are none.
    pub fn give(&mut self, place: Place, parameter: &Value, value: Reading) -> Result<(), ElabFault>
        ensures { Gives (λ _. tt) result self.new (give place (meant parameter.now) (read_as value) self.old) }
    {
        let Some(name) = self.parameter_of(parameter) else {
            return Err(ElabFault::BadArgument(place));
        };
        let name = copy_name(self.alloc, name)?;
        let array = numbers_read(place, value)?;
        self.set_value(&name, &array)
    }
}
