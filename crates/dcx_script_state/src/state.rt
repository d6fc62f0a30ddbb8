//! What is carried along from statement to statement, its names and its steps.
ghost use Rattle.std.specs.Prelude.{◌≡◌, option_map, is_some};
ghost use Rattle.std.specs.Map.{lookup};
ghost use Rattle.dcx_point.specs.Pairs.{same_name};
ghost use Rattle.dcx_script_values.specs.Values.{look, bound_to, bind, restore, step};
ghost use Rattle.dcx_script_values.specs.Meant.{meant};
ghost use Rattle.dcx_script_values.specs.View.{Gives};
ghost use Rattle.dcx_script_state.specs.Declarations.{start};

use crate::declared::Declared;
use dcx_arena::Count;
use dcx_point::Setting;
use dcx_script_values::{ElabFault, Objective, Value, too_many};
use dcx_shape::{Name, Place, copy_name};
use dcx_syntax::Named;
use dcx_tree::{Constraint, Tree};
use indexmap::IndexMap;
use std::alloc::Global;
use std::collections::HashSet;
use std::marker::Model;

/// The most steps of a script.
const MOST_STEPS: u32 = 100_000;

/// Where the problem begins in the tree, and the names of the parameters that it reaches.
#[derive(Drop)]
pub(crate) struct Asked {
    pub(crate) objective: Objective,
    pub(crate) constraints: Vec<Constraint>,
    pub(crate) reached: HashSet<Name>,
}

/// What is carried along: the bound names in order, the nodes, what was declared in order, the values of parameters, the
/// problem once it is made, the setting of each solve, and the steps so far.
#[derive(Drop)]
pub struct State {
    pub(crate) alloc: Global,
    pub(crate) names: IndexMap<Name, Value>,
    pub(crate) tree: Tree,
    pub(crate) declared: Declared,
    pub(crate) setting: Setting,
    pub(crate) asked: Option<Asked>,
    pub(crate) events: Vec<Setting>,
    pub(crate) steps: u32,
}

impl Model for State {
    ghost use Rattle.dcx_script_values.specs.Values.{State as MeantState};
    ghost use Rattle.dcx_script_state.specs.Codes.{state_code};

    ghost Value = { MeantState };

    ghost coded = { state_code };

    ghost use Rattle.dcx_script_state.specs.Kept.{state_of, IsKept};

    ghost view = { state_of };

    ghost invariant = { λ s. IsKept s.tree s.declared.variables s.declared.parameters s.asked };
}

impl State {
    /// Nothing is bound and nothing declared. Takes no memory.
    pub fn new(alloc: Global) -> State
        ensures { result ≡ start }
    {
        State {
            alloc,
            names: IndexMap::new(alloc),
            tree: Tree::new(alloc),
            declared: Declared::new(alloc),
            setting: Setting::empty(alloc),
            asked: None,
            events: Vec::new(alloc),
            steps: 0,
        }
    }

    /// Where memory comes from.
    pub fn alloc(&self) -> Global {
        self.alloc
    }

    /// The nodes.
    pub fn tree(&self) -> &Tree
        ensures { result.now ≡ self.now.nodes }
    {
        &self.tree
    }

    /// Whether a name is bound.
    pub fn is_bound(&self, name: &Name) -> bool
        ensures { result ≡ is_some (lookup (same_name name.now) self.now.names) }
    {
        self.names.contains_key(name)
    }

    /// What a name is bound to.
    pub fn bound_to(&self, name: &Name) -> Result<Option<Value>, ElabFault>
        ensures { Gives (option_map meant) result self.now (bound_to name.now self.now) }
    {
        match self.names.get(name) {
            Some(value) => Ok(Some(value.share()?)),
            None => Ok(None),
        }
    }

    /// The value of a name; `UnknownName` where it isn't bound.
    pub fn look(&self, name: &Named) -> Result<Value, ElabFault>
        ensures { Gives meant result self.now (look name.now.name name.now.place self.now) }
    {
        match self.names.get(&name.name) {
            Some(value) => Ok(value.share()?),
            None => Err(ElabFault::UnknownName(name.place)),
        }
    }

    /// Binds a name. One that is bound keeps its place among the names.
    pub fn bind(&mut self, name: &Name, value: Value) -> Result<(), ElabFault>
        ensures { Gives (λ _. tt) result self.new (bind name.now (meant value) self.old) }
    {
        let name = copy_name(self.alloc, name)?;
        self.names.insert(name, value)?;
        Ok(())
    }

    /// As a name was before it was bound for a while.
    pub fn restore(&mut self, name: &Name, before: Option<Value>) -> Result<(), ElabFault>
        ensures { Gives (λ _. tt) result self.new (restore name.now (option_map meant before) self.old) }
    {
        match before {
            Some(value) => self.bind(name, value),
            None => {
                self.names.shift_remove(name);
                Ok(())
            }
        }
    }

    /// One step more, whose statement or element begins at the place; `TooMany` where the limit is passed.
    pub fn step(&mut self, place: Place) -> Result<(), ElabFault>
        ensures { Gives (λ _. tt) result self.new (step place self.old) }
    {
        let steps = self.steps;
        if steps >= MOST_STEPS {
            return Err(too_many(place, Count::Steps, steps as u128 + 1));
        }
        self.steps = steps + 1;
        Ok(())
    }
}
