//! The problem of a script, its solves and their settings.
ghost use Rattle.std.specs.Prelude.{◌≡◌, ℕ, ◌<◌, ◌^◌, List, filter, length, map, Ok, IfOk, OnOk};
ghost use Rattle.std.specs.List.{list_any, IsDistinct};
ghost use Rattle.std.specs.HashSet.{contains};
ghost use Rattle.dcx_point.specs.Pairs.{same_name, with_array};
ghost use Rattle.dcx_tree.specs.Gather.{IsProblemOf};
ghost use Rattle.dcx_call.specs.Attributes.{AreSquare};
ghost use Rattle.dcx_tree.specs.Problems.{IsObjective, AreConstraints, declared_names};
ghost use Rattle.dcx_script_values.specs.Values.{objective as objective_value};
ghost use Rattle.dcx_script_values.specs.Meant.{meant};
ghost use Rattle.dcx_script_values.specs.View.{Gives};
ghost use Rattle.dcx_script_state.specs.Declarations.{constraint_list, is_reached, make_problem, solve, standing_setting, events_or_end};
ghost use Rattle.dcx_script_state.specs.Ends.{asked_for, roots_in, Stands, Ends};

use crate::state::{Asked, State};
use dcx_arena::Count;
use dcx_atom::{Array, copy_array};
use dcx_call::{Parameter, Variable, copy_parameter, copy_variable};
use dcx_point::Setting;
use dcx_script_values::{ElabFault, Objective, Value, too_many};
use dcx_shape::{Name, Place, copy_name};
use dcx_tree::{Constraint, Constraints, Parameters, Problem, Roots, Variables, gather};
use std::alloc::{AllocError, Global};
use std::collections::HashSet;
use std::mem;

/// The most solves of a script.
const MOST_EVENTS: u32 = 1000;

/// What a script asks: the problem, the setting of each solve, and the setting at its end.
#[derive(Drop)]
pub struct Asking {
    /// The problem.
    pub problem: Problem,
    /// The setting of each solve, or that at the end where there is none.
    pub events: Vec<Setting>,
    /// The setting at the end.
    pub last: Setting,
}

/// The constraints among these values.
fn constraints_in(alloc: Global, values: &[Value]) -> Result<Vec<Constraint>, AllocError>
    ensures { IfOk result (λ v. v.items ≡ constraint_list (map meant values.now)) }
{
    let mut constraints = Vec::with_capacity(alloc, values.len())?;
    for value in values {
        if let Value::Constraint(constraint) = value {
            constraints.push(*constraint)?;
        }
    }
    Ok(constraints)
}

/// The same variables again.
fn copy_variables(alloc: Global, variables: &[Variable]) -> Result<Variables, AllocError>
    ensures { IfOk result (λ v. v ≡ variables.now) }
{
    let mut copies = Vec::with_capacity(alloc, variables.len())?;
    for variable in variables {
        copies.push(copy_variable(alloc, variable)?)?;
    }
    Ok(Variables::from_vec(copies))
}

/// The same parameters again.
fn copy_parameters(alloc: Global, parameters: &[Parameter]) -> Result<Parameters, AllocError>
    ensures { IfOk result (λ v. v ≡ parameters.now) }
{
    let mut copies = Vec::with_capacity(alloc, parameters.len())?;
    for parameter in parameters {
        copies.push(copy_parameter(alloc, parameter)?)?;
    }
    Ok(Parameters::from_vec(copies))
}

/// What is made, beside what was made before.
fn beside<T: Drop, U: Drop>(made: T, next: Result<U, AllocError>) -> Result<(T, U), AllocError>
    ensures { IfOk result (λ r. (r.0 ≡ made) × (next ≡ Ok r.1)) }
{
    match next {
        Ok(next) => Ok((made, next)),
        Err(stop) => Err(stop),
    }
}

/// The names of parameters.
fn names_of(alloc: Global, parameters: &[Parameter]) -> Result<HashSet<Name>, AllocError>
    ensures { IfOk result (λ s. (name : List ℕ) → contains same_name s name ≡ list_any (λ p. same_name name p.name) parameters.now) }
{
    let mut names = HashSet::new(alloc);
    for parameter in parameters {
        names.insert(copy_name(alloc, &parameter.name)?)?;
    }
    Ok(names)
}

/// Puts a copy of an array under this name.
pub(crate) fn put_copy(
    alloc: Global,
    setting: &mut Setting,
    name: &Name,
    array: &Array,
) -> Result<(), AllocError>
    ensures { OnOk result (setting.new ≡ with_array setting.old name.now array.now) }
{
    let name = copy_name(alloc, name)?;
    let array = copy_array(alloc, array)?;
    setting.put(name, array)
}

/// Those values of the setting whose names are reached.
fn reached_values(
    alloc: Global,
    reached: &HashSet<Name>,
    setting: &Setting,
) -> Result<Setting, AllocError>
    ensures { IfOk result (λ v. v ≡ filter (λ e. contains same_name reached.now e.0) setting.now) }
{
    let mut values = Setting::empty(alloc);
    for i in 0..setting.len() {
        if let Some(name) = setting.name_at(i) {
            if let Some(array) = setting.get(name) {
                if reached.contains(name) {
                    put_copy(alloc, &mut values, name, array)?;
                }
            }
        }
    }
    Ok(values)
}

impl State {
    /// The problem of this objective and these constraints over what is declared so far. `AllocError` is want of memory.
    fn problem_over(
        &self,
        objective: Objective,
        constraints: &[Constraint],
    ) -> Result<Problem, AllocError>
        requires objective { IsObjective self.now.nodes objective.node }
        requires constraints { AreConstraints self.now.nodes constraints.now }
        ensures { IfOk result (IsProblemOf self.now.nodes (roots_in self.now (asked_for objective constraints.now))) }
    {
        let roots = self.roots(objective, constraints)?;
        match gather(self.alloc, &self.tree, &roots) {
            Ok(problem) => Ok(problem),
            Err(_) => Err(AllocError),
        }
    }

    /// Where the problem of this objective and these constraints begins, over what is declared so far.
    fn roots(&self, objective: Objective, constraints: &[Constraint]) -> Result<Roots, AllocError>
        ensures roots { IfOk result (λ r. r ≡ roots_in self.now (asked_for objective constraints.now)) }
        ensures distinct { OnOk result (IsDistinct same_name (declared_names self.now.variables self.now.parameters)) }
        ensures squares { OnOk result (AreSquare self.now.variables) }
    {
        let constraints = Vec::from_slice(self.alloc, constraints)?;
        let (variables, parameters) = self.declarations()?;
        Ok(Roots {
            sense: objective.sense,
            objective: objective.node,
            objective_place: objective.place,
            constraints: Constraints::from_vec(constraints),
            variables,
            parameters,
        })
    }

    /// The variables and the parameters that are declared so far, again.
    fn declarations(&self) -> Result<(Variables, Parameters), AllocError>
        ensures copies { IfOk result (λ r. (r.0 ≡ self.now.variables) × (r.1 ≡ self.now.parameters)) }
        ensures distinct { IsDistinct same_name (declared_names self.now.variables self.now.parameters) }
        ensures squares { AreSquare self.now.variables }
    {
        let variables = copy_variables(self.alloc, self.declared.variables())?;
        beside(
            variables,
            copy_parameters(self.alloc, self.declared.parameters()),
        )
    }

    /// The names of the parameters that the problem of this objective and these constraints reaches.
    fn reached_by(
        &self,
        objective: Objective,
        constraints: &[Constraint],
    ) -> Result<HashSet<Name>, AllocError>
        requires objective { IsObjective self.now.nodes objective.node }
        requires constraints { AreConstraints self.now.nodes constraints.now }
        ensures { IfOk result (λ s. (name : List ℕ) → contains same_name s name ≡ is_reached self.now.nodes (asked_for objective constraints.now) name) }
    {
        let problem = self.problem_over(objective, constraints)?;
        names_of(self.alloc, problem.parameters.as_slice())
    }

    /// The problem of an objective under the constraints among these values.
    ///
    /// `BadArgument` where the objective is no node of one entry, or a side of a constraint no node of its shape;
    /// `TwoProblems` where there is a problem.
    pub fn make_problem(
        &mut self,
        place: Place,
        objective: Objective,
        values: &[Value],
    ) -> Result<Value, ElabFault>
        requires few { length values.now < 2 ^ 32 }
        ensures { Gives meant result self.new (make_problem place (objective_value objective.sense objective.node.0 objective.place) (map meant values.now) self.old) }
    {
        let constraints = constraints_in(self.alloc, values)?;
        if !self.tree.is_objective(objective.node) || !self.tree.are_constraints(&constraints) {
            return Err(ElabFault::BadArgument(place));
        }
        if self.asked.is_some() {
            return Err(ElabFault::TwoProblems(place));
        }
        let reached = self.reached_by(objective, &constraints)?;
        self.asked = Some(Asked {
            objective,
            constraints,
            reached,
        });
        Ok(Value::Problem)
    }

    /// The values of the parameters that the problem reaches.
    fn standing_setting(&self) -> Result<Setting, AllocError>
        ensures { IfOk result (λ v. v ≡ standing_setting self.now) }
    {
        match &self.asked {
            Some(asked) => reached_values(self.alloc, &asked.reached, &self.setting),
            None => Ok(Setting::empty(self.alloc)),
        }
    }

    /// A solve at the setting that stands; `TooMany` where the limit is passed.
    pub fn solve(&mut self, place: Place) -> Result<Value, ElabFault>
        ensures { Gives meant result self.new (solve place self.old) }
    {
        let solves = self.events.len();
        if solves >= MOST_EVENTS as usize {
            return Err(too_many(place, Count::Events, solves as u128 + 1));
        }
        let setting = self.standing_setting()?;
        self.events.push(setting)?;
        Ok(Value::Result)
    }

    /// The problem that is asked for, and the values that stand for it; `NoProblem` where there is none.
    fn standing(&self) -> Result<(Problem, Setting), ElabFault>
        ensures { Stands result self.now }
    {
        let Some(asked) = &self.asked else {
            return Err(ElabFault::NoProblem(Place { line: 1, column: 1 }));
        };
        let last = self.standing_setting()?;
        let problem = self.problem_over(asked.objective, &asked.constraints);
        let (last, problem) = beside(last, problem)?;
        Ok((problem, last))
    }

    /// The settings of the solves, or that at the end where there is none. They are taken out of the state.
    fn take_events(&mut self) -> Result<Vec<Setting>, AllocError>
        ensures { IfOk result (λ v. v.items ≡ events_or_end (standing_setting self.old) self.old.events) }
    {
        if self.events.is_empty() {
            let end = self.standing_setting()?;
            self.events.push(end)?;
        }
        Ok(mem::replace(&mut self.events, Vec::new(self.alloc)))
    }

    /// What the script asks at its end. The settings of the solves are taken out of the state.
    fn take_asking(&mut self) -> Result<Asking, ElabFault>
        ensures { Ends result self.old }
    {
        let standing = self.standing()?;
        let ((problem, last), events) = beside(standing, self.take_events())?;
        Ok(Asking {
            problem,
            events,
            last,
        })
    }

    /// What the script asks at its end, where one without a solve is solved once; `NoProblem` where it has none.
    pub fn finish(self) -> Result<Asking, ElabFault>
        ensures { Ends result self }
    {
        let mut state = self;
        let asking = state.take_asking();
        drop(state);
        asking
    }
}
