//! What a line does: one function for each form of the grammar.
ghost use Rattle.std.specs.Prelude.{◌≡◌, map, option_map, option_copied};
ghost use Rattle.dcx_syntax.specs.View.{expr_view, postfix_view, line_view, lines_of};
ghost use Rattle.dcx_script_values.specs.Values.{list, joined, bind, and_then};
ghost use Rattle.dcx_script_values.specs.Meant.{meant};
ghost use Rattle.dcx_script_values.specs.View.{Gives};
ghost use Rattle.dcx_elab.specs.Statements as meaning;

use crate::expressions::{expr, postfix};
use dcx_operators::add_values;
use dcx_script_state::State;
use dcx_script_values::{ElabFault, Items, Value, joined, read_value};
use dcx_shape::{Name, Place};
use dcx_signature::{expr_place, items_through, module_word};
use dcx_syntax::{Expr, Import, Line, Named, Postfix, Primary, Sign};
use std::rc::Rc;

// ---- imports

/// Binds a module under the name behind `as`, or else under its own.
fn import(state: &mut State, line: &Import) -> Result<(), ElabFault>
    ensures { Gives (λ _. tt) result state.new (meaning.import_means line.now state.old) }
{
    state.step(line.place)?;
    match &line.alias {
        Some(name) => state.bind(&name.name, Value::Library(line.module)),
        None => {
            let word = Vec::from_slice(state.alloc(), module_word(line.module).as_bytes())?;
            state.bind(&Name::from_vec(word), Value::Library(line.module))
        }
    }
}

// ---- assignments

/// The postfix that an expression is, where it is one and nothing else.
fn only_postfix(tree: &Expr) -> Option<&Postfix>
    ensures { option_map postfix_view (option_copied result) ≡ meaning.only_postfix (expr_view tree.now) }
{
    let sum = &tree.first;
    let term = &sum.first;
    let factor = &term.first;
    let power = &factor.power;
    if !tree.rest.is_empty() {
        return None;
    }
    if !sum.rest.is_empty() {
        return None;
    }
    if !term.rest.is_empty() {
        return None;
    }
    if !factor.signs.is_empty() {
        return None;
    }
    if !power.rest.is_empty() {
        return None;
    }
    Some(&power.first)
}

fn is_just_name(tree: &Postfix) -> bool
    ensures { result ≡ meaning.is_just_name (Some (postfix_view tree.now)) }
{
    match &tree.primary {
        Primary::Name(_) => tree.trailers.is_empty(),
        _ => false,
    }
}

/// The right side of an assignment to a name. Just a name that is bound to a list is not offered, since Python would have
/// two names for one list that changes.
fn assigned(state: &mut State, name: &Name, tree: &Expr) -> Result<Value, ElabFault>
    ensures { Gives meant result state.new (meaning.assigned name.now (expr_view tree.now) state.old) }
{
    let Some(alone) = only_postfix(tree) else {
        return expr(state, tree);
    };
    let value = postfix(state, Some(name), alone)?;
    if is_just_name(alone) && matches!(&value, Value::List(_)) {
        return Err(ElabFault::NotOffered(expr_place(tree)));
    }
    Ok(value)
}

fn assign(state: &mut State, name: &Named, tree: &Expr) -> Result<(), ElabFault>
    ensures { Gives (λ _. tt) result state.new (meaning.assign_means name.now (expr_view tree.now) state.old) }
{
    state.step(name.place)?;
    let value = assigned(state, &name.name, tree)?;
    state.bind(&name.name, value)
}

/// Makes the list of a name longer by another one. It is made longer where it is, if nothing else shares it: so the name
/// lets go of it first.
fn lengthen(
    state: &mut State,
    name: &Name,
    place: Place,
    first: Rc<Items>,
    second: &Items,
) -> Result<(), ElabFault>
    ensures { Gives (λ _. tt) result state.new (and_then (joined place first.value second.now state.old) (λ vs. bind name.now (list vs))) }
{
    state.bind(name, Value::Nothing)?;
    let all = joined(state.alloc(), place, first, second)?;
    state.bind(name, Value::List(all))
}

/// `name += e`, whose `+=` stands at the place.
fn add_to(state: &mut State, name: &Named, place: Place, tree: &Expr) -> Result<(), ElabFault>
    ensures { Gives (λ _. tt) result state.new (meaning.add_to_means name.now place (expr_view tree.now) state.old) }
{
    state.step(name.place)?;
    let old = state.look(name)?;
    let more = expr(state, tree)?;
    match (old, more) {
        (Value::List(first), Value::List(second)) => {
            lengthen(state, &name.name, place, first, &second)
        }
        (left, right) => {
            let value = add_values(state, Sign::Plus, place, left, right)?;
            state.bind(&name.name, value)
        }
    }
}

/// `p.value = e`, whose `value` stands at the place.
fn set_value(state: &mut State, name: &Named, place: Place, tree: &Expr) -> Result<(), ElabFault>
    ensures { Gives (λ _. tt) result state.new (meaning.set_value_means name.now place (expr_view tree.now) state.old) }
{
    state.step(name.place)?;
    let parameter = state.look(name)?;
    let value = expr(state, tree)?;
    let numbers = read_value(state.alloc(), &value)?;
    state.give(place, &parameter, numbers)
}

fn evaluate(state: &mut State, tree: &Expr) -> Result<(), ElabFault>
    ensures { Gives (λ _. tt) result state.new (meaning.evaluate_means (expr_view tree.now) state.old) }
{
    state.step(expr_place(tree))?;
    expr(state, tree)?;
    Ok(())
}

// ---- lines

/// What a line does. The lines of a `for` are carried out once for each item, to which its name is bound.
#[cycle(lines)]
fn line(state: &mut State, tree: &Line) -> Result<(), ElabFault>
    ensures { Gives (λ _. tt) result state.new (meaning.line_means (line_view tree.now) state.old) }
{
    match tree {
        Line::Import(import_line) => import(state, import_line),
        Line::Assign { name, value } => assign(state, name, value),
        Line::AddTo { name, place, value } => add_to(state, name, *place, value),
        Line::SetValue { name, place, value } => set_value(state, name, *place, value),
        Line::Evaluate(value) => evaluate(state, value),
        Line::Print { place, .. } => state.step(*place),
        Line::For {
            place,
            name,
            source,
            first,
            rest,
        } => {
            state.step(*place)?;
            let value = expr(state, source)?;
            let through = items_through(*place, value)?;
            for k in 0..through.count() {
                let item = through.item(state.alloc(), k)?;
                state.bind(&name.name, item)?;
                line(state, first)?;
                lines(state, rest)?;
            }
            Ok(())
        }
    }
}

/// What lines do, one after the other.
#[cycle(lines)]
pub fn lines(state: &mut State, trees: &[Line]) -> Result<(), ElabFault>
    ensures { Gives (λ _. tt) result state.new (meaning.lines_mean (lines_of (map line_view trees.now)) state.old) }
{
    for tree in trees {
        line(state, tree)?;
    }
    Ok(())
}
