//! The variables and parameters that are declared, of which no two have the same name. Symmetric and diagonal variables are square.
ghost use Rattle.std.specs.Prelude.{◌≡◌, false, true, [], ◌∷◌, ◌++◌, OnOk, OnErr};
ghost use Rattle.std.specs.List.{IsDistinct};
ghost use Rattle.std.specs.HashSet.{Updates, IsUnchanged};
ghost use Rattle.dcx_point.specs.Pairs.{same_name};
ghost use Rattle.dcx_call.specs.Attributes.{IsSquare, AreSquare};
ghost use Rattle.dcx_tree.specs.Problems.{declared_names};
ghost use Rattle.dcx_script_state.specs.Lists.{is_among};

use dcx_call::{Parameter, Variable};
use dcx_shape::{Name, copy_name};
use std::alloc::{AllocError, Global};
use std::collections::HashSet;
use std::marker::Model;

/// Variables and parameters in order of declaration, with their names beside them, so that a name is found without a
/// walk.
#[derive(Drop)]
pub(crate) struct Declared {
    variables: Vec<Variable>,
    parameters: Vec<Parameter>,
    names: HashSet<Name>,
}

impl Model for Declared {
    ghost use Rattle.dcx_script_state.specs.Lists.{Lists};

    ghost Value = { Lists };

    ghost use Rattle.std.specs.HashSet.{contains};
    ghost use Rattle.dcx_point.specs.Pairs.{same_name};
    ghost use Rattle.dcx_script_state.specs.Lists.{AreNamed};

    ghost view = { λ d. record { variables = d.variables.items; parameters = d.parameters.items } };

    ghost invariant = { λ d. AreNamed d.variables.items d.parameters.items (contains same_name d.names) };
}

/// One item more, and its name among the names. Where there is no memory, both are as they were.
fn push_named<T: Drop>(
    items: &mut Vec<T>,
    names: &mut HashSet<Name>,
    item: T,
    name: Name,
) -> Result<(), AllocError>
    ensures pushed { OnOk result (items.new.items ≡ items.old.items ++ item ∷ []) }
    ensures named { OnOk result (Updates same_name names.old names.new name true) }
    ensures same_items { OnErr result (items.new.items ≡ items.old.items) }
    ensures same_names { OnErr result (IsUnchanged names.old names.new) }
{
    items.reserve(1)?;
    names.insert(name)?;
    items.push_reserved(item);
    Ok(())
}

impl Declared {
    /// Nothing is declared. Takes no memory.
    pub(crate) fn new(alloc: Global) -> Declared
        ensures { result ≡ record { variables = []; parameters = [] } }
    {
        Declared {
            variables: Vec::new(alloc),
            parameters: Vec::new(alloc),
            names: HashSet::new(alloc),
        }
    }

    /// Whether a variable or a parameter has this name.
    pub(crate) fn has(&self, name: &Name) -> bool
        ensures { result ≡ is_among name.now self.now.variables self.now.parameters }
    {
        self.names.contains(name)
    }

    /// The variables in order of declaration.
    pub(crate) fn variables(&self) -> &[Variable]
        ensures items { result.now ≡ self.now.variables }
        ensures distinct { IsDistinct same_name (declared_names self.now.variables self.now.parameters) }
        ensures squares { AreSquare self.now.variables }
    {
        self.variables.as_slice()
    }

    /// The parameters in order of declaration.
    pub(crate) fn parameters(&self) -> &[Parameter]
        ensures { result.now ≡ self.now.parameters }
    {
        self.parameters.as_slice()
    }

    /// One variable more, whose name is new, and which is square if it must be. Where there is no memory, all is as it was.
    pub(crate) fn add_variable(
        &mut self,
        alloc: Global,
        variable: Variable,
    ) -> Result<(), AllocError>
        requires new { is_among variable.name self.old.variables self.old.parameters ≡ false }
        requires square { IsSquare variable }
        ensures ok { OnOk result (self.new ≡ record self.old { variables = self.old.variables ++ variable ∷ [] }) }
        ensures err { OnErr result (self.new ≡ self.old) }
    {
        let name = copy_name(alloc, &variable.name)?;
        push_named(&mut self.variables, &mut self.names, variable, name)
    }

    /// One parameter more, whose name is new. Where there is no memory, all is as it was.
    pub(crate) fn add_parameter(
        &mut self,
        alloc: Global,
        parameter: Parameter,
    ) -> Result<(), AllocError>
        requires { is_among parameter.name self.old.variables self.old.parameters ≡ false }
        ensures ok { OnOk result (self.new ≡ record self.old { parameters = self.old.parameters ++ parameter ∷ [] }) }
        ensures err { OnErr result (self.new ≡ self.old) }
    {
        let name = copy_name(alloc, &parameter.name)?;
        push_named(&mut self.parameters, &mut self.names, parameter, name)
    }
}
