//! What an expression gives: one function for each rule of the grammar, and one for each of its repetitions.
ghost use Rattle.std.specs.Prelude.{Bool, [], ◌∷◌, ◌<◌, ◌≤◌, length, map, option_copied, option_map, IfOk, if◌then◌else◌};
ghost use Rattle.dcx_syntax.specs.Expressions.{no_addition, no_scaling, no_power, name_at, attribute as attribute_of, postfix as postfix_of};
ghost use Rattle.dcx_syntax.specs.View.{
  chained,
  args_of,
  indices_of,
  more_items_of,
  optional_view,
  step_view,
  expr_view,
  sum_view,
  added_view,
  term_view,
  scaled_view,
  factor_view,
  power_view,
  raised_view,
  postfix_view,
  arg_view,
  index_view,
  primary_view,
};
ghost use Rattle.dcx_script_values.specs.Values.{items_of, nothing, done, and_then};
ghost use Rattle.dcx_script_values.specs.Meant.{meant};
ghost use Rattle.dcx_script_values.specs.View.{Gives};
ghost use Rattle.dcx_signature.specs.View.{given_seen, through_seen};
ghost use Rattle.dcx_signature.specs.Firsts.{expr_place as first_place};
ghost use Rattle.dcx_operators.specs.View.{evaluated};
ghost use Rattle.dcx_elab.specs.Expressions as meaning;
ghost use Rattle.dcx_elab.specs.Turns.{turn, turns};
ghost use Rattle.dcx_elab.specs.View.{GoesOn, compared_from, trailers_from};

use crate::called::{is_range, is_solve, method_called, name_called, target_before};
use crate::leaves::{no_items, signed, text};
use dcx_operators::{
    Evaluated, add_values, attribute_value, compare_values, index_value, scale_values,
};
use dcx_script_state::State;
use dcx_script_values::{ElabFault, Items, Value};
use dcx_shape::{Name, Place};
use dcx_signature::{
    Given, Through, expr_place, is_ignored_word, items_through, number_value, primary_place,
};
use dcx_syntax::{
    Added, Arg, Compared, Expr, Factor, Index, Named, Postfix, Power, Primary, Raised, Scaled,
    Step, Sum, Term, Trailer,
};
use std::rc::Rc;

// ---- comparisons, sums and products

/// What an expression gives. A second comparison is not offered.
#[cycle(eval)]
pub fn expr(state: &mut State, tree: &Expr) -> Result<Value, ElabFault>
    ensures { Gives meant result state.new (meaning.expr_means (expr_view tree.now) state.old) }
{
    let left = sum(state, &tree.first)?;
    comparisons(state, &tree.rest, left)
}

/// What the first comparison makes of the value on its left.
#[cycle(eval)]
fn comparisons(state: &mut State, all: &[Compared], left: Value) -> Result<Value, ElabFault>
    ensures { Gives meant result state.new (meaning.compared_means (compared_from all.now 0) (meant left) state.old) }
{
    if all.is_empty() {
        return Ok(left);
    }
    let first = &all[0];
    let right = sum(state, &first.sum)?;
    let value = compare_values(state, first.comparison, first.place, left, right)?;
    chain(state, all, value)
}

/// A second comparison is not offered, once its right side is evaluated.
#[cycle(eval)]
fn chain(state: &mut State, all: &[Compared], value: Value) -> Result<Value, ElabFault>
    ensures { Gives meant result state.new (meaning.chained_means (compared_from all.now 1) (meant value) state.old) }
{
    if all.len() < 2 {
        return Ok(value);
    }
    let second = &all[1];
    sum(state, &second.sum)?;
    Err(ElabFault::NotOffered(second.place))
}

#[cycle(eval)]
fn sum(state: &mut State, tree: &Sum) -> Result<Value, ElabFault>
    ensures { Gives meant result state.new (meaning.sum_means (sum_view tree.now) state.old) }
{
    let first = term(state, &tree.first)?;
    additions(state, &tree.rest, first)
}

/// What the terms of a sum behind the first make of a value.
#[cycle(eval)]
fn additions(state: &mut State, rest: &[Added], first: Value) -> Result<Value, ElabFault>
    ensures { Gives meant result state.new (meaning.added_means (chained (map added_view rest.now) no_addition) (meant first) state.old) }
{
    let mut value = first;
    for added in rest {
        let right = term(state, &added.term)?;
        value = add_values(state, added.sign, added.place, value, right)?;
    }
    Ok(value)
}

#[cycle(eval)]
fn term(state: &mut State, tree: &Term) -> Result<Value, ElabFault>
    ensures { Gives meant result state.new (meaning.term_means (term_view tree.now) state.old) }
{
    let first = factor(state, &tree.first)?;
    scalings(state, &tree.rest, first)
}

/// What the factors of a product behind the first make of a value.
#[cycle(eval)]
fn scalings(state: &mut State, rest: &[Scaled], first: Value) -> Result<Value, ElabFault>
    ensures { Gives meant result state.new (meaning.scaled_means (chained (map scaled_view rest.now) no_scaling) (meant first) state.old) }
{
    let mut value = first;
    for scaled in rest {
        let right = factor(state, &scaled.factor)?;
        value = scale_values(state, scaled.scaling, scaled.place, value, right)?;
    }
    Ok(value)
}

#[cycle(eval)]
fn factor(state: &mut State, tree: &Factor) -> Result<Value, ElabFault>
    ensures { Gives meant result state.new (meaning.factor_means (factor_view tree.now) state.old) }
{
    let value = power(state, &tree.power)?;
    signed(state, &tree.signs, value)
}

/// A power is not offered, once its first exponent is evaluated.
#[cycle(eval)]
fn power(state: &mut State, tree: &Power) -> Result<Value, ElabFault>
    ensures { Gives meant result state.new (meaning.power_means (power_view tree.now) state.old) }
{
    let value = postfix(state, None, &tree.first)?;
    exponents(state, &tree.rest, value)
}

#[cycle(eval)]
fn exponents(state: &mut State, rest: &[Raised], value: Value) -> Result<Value, ElabFault>
    ensures { Gives meant result state.new (meaning.raised_means (chained (map raised_view rest.now) no_power) (meant value) state.old) }
{
    match rest {
        [] => Ok(value),
        [first, ..] => {
            let exponent = postfix(state, None, &first.postfix)?;
            signed(state, &first.signs, exponent)?;
            Err(ElabFault::NotOffered(first.place))
        }
    }
}

// ---- what follows a primary

/// A primary and what follows it, where the target is the name to which the whole is assigned.
#[cycle(eval)]
pub fn postfix(state: &mut State, target: Option<&Name>, tree: &Postfix) -> Result<Value, ElabFault>
    ensures { Gives meant result state.new (meaning.postfix_means (option_copied target.entry) (postfix_view tree.now) state.old) }
{
    match &tree.primary {
        Primary::Name(name) => named(state, target, name, &tree.trailers),
        _ => {
            let place = primary_place(&tree.primary);
            let value = primary(state, &tree.primary)?;
            trailers(state, target, place, &tree.trailers, 0, value)
        }
    }
}

/// A name and what follows it: a call of the name, or its value.
#[cycle(eval)]
fn named(
    state: &mut State,
    target: Option<&Name>,
    name: &Named,
    all: &[Trailer],
) -> Result<Value, ElabFault>
    ensures { Gives meant result state.new (meaning.postfix_means (option_copied target.entry) (postfix_of (name_at name.now) (trailers_from all.now 0)) state.old) }
{
    if all.is_empty() {
        return Ok(state.look(name)?);
    }
    match &all[0] {
        Trailer::Call { args, .. } => {
            let ranged = is_range(state, name)?;
            let given = arguments_given(state, false, args)?;
            let value = name_called(state, name, ranged, given)?;
            trailers(state, target, name.place, all, 1, value)
        }
        _ => {
            let value = state.look(name)?;
            trailers(state, target, name.place, all, 0, value)
        }
    }
}

/// What the trailers from an index on make of a value, whose first token stands at the place.
#[cycle(eval)]
fn trailers(
    state: &mut State,
    target: Option<&Name>,
    place: Place,
    all: &[Trailer],
    from: usize,
    first: Value,
) -> Result<Value, ElabFault>
    ensures { Gives meant result state.new (meaning.trailers_mean (option_copied target.entry) place (trailers_from all.now from) (meant first) state.old) }
{
    let mut value = first;
    let mut at = from;
    while at < all.len() {
        let (after, next) = trailer(state, target, place, all, at, value)?;
        value = after;
        at = next;
    }
    Ok(value)
}

/// What the trailer at an index makes of a value, an attribute with the call behind it; and where the next trailer stands.
#[cycle(eval)]
fn trailer(
    state: &mut State,
    target: Option<&Name>,
    place: Place,
    all: &[Trailer],
    at: usize,
    value: Value,
) -> Result<(Value, usize), ElabFault>
    requires { at < length all.now }
    ensures goes_on { GoesOn (λ r. meaning.trailers_mean (option_copied target.entry) place (trailers_from all.now r.1) (meant r.0)) result state.new
        (meaning.trailers_mean (option_copied target.entry) place (trailers_from all.now at) (meant value) state.old) }
    ensures further { IfOk result (λ r. at < r.1) }
{
    let next = at + 1;
    match &all[at] {
        Trailer::Attribute(name) => attribute(state, target, place, all, next, name, value),
        Trailer::Call { args, .. } => {
            arguments_given(state, false, args)?;
            Err(ElabFault::UnknownCall(place))
        }
        Trailer::Index {
            place: bracket,
            first,
            rest,
        } => {
            let index = index_given(state, first)?;
            let indices = indices_given(state, index, rest)?;
            Ok((index_value(state, *bracket, value, &indices)?, next))
        }
    }
}

/// An attribute of a value, or its call, where the trailer at the index is one; and where the next trailer stands.
#[cycle(eval)]
fn attribute(
    state: &mut State,
    target: Option<&Name>,
    place: Place,
    all: &[Trailer],
    at: usize,
    name: &Named,
    value: Value,
) -> Result<(Value, usize), ElabFault>
    ensures goes_on { GoesOn (λ r. meaning.trailers_mean (option_copied target.entry) place (trailers_from all.now r.1) (meant r.0)) result state.new
        (meaning.trailers_mean (option_copied target.entry) place (attribute_of name.now (trailers_from all.now at)) (meant value) state.old) }
    ensures further { IfOk result (λ r. at ≤ r.1) }
{
    if at >= all.len() {
        return Ok((attribute_value(state, name, value)?, at));
    }
    match &all[at] {
        Trailer::Call { args, .. } => {
            let next = at + 1;
            let solving = is_solve(&value, &name.name);
            let given = arguments_given(state, solving, args)?;
            let kept = target_before(target, all, next);
            Ok((
                method_called(state, kept, place, &value, name, given)?,
                next,
            ))
        }
        _ => Ok((attribute_value(state, name, value)?, at)),
    }
}

/// The arguments of a call in order.
#[cycle(eval)]
fn arguments_given<'a>(
    state: &mut State,
    solving: bool,
    args: &'a [Arg],
) -> Result<Vec<Given<'a>>, ElabFault>
    ensures { (comma : Bool) → Gives (λ v. map given_seen v.items) result state.new (meaning.args_mean solving (args_of (map arg_view args.now) comma) state.old) }
{
    let mut given = Vec::with_capacity(state.alloc(), args.len())?;
    for arg in args {
        given.push(argument_given(state, solving, arg)?)?;
    }
    Ok(given)
}

/// An argument; a solve doesn't look at those that it ignores.
#[cycle(eval)]
fn argument_given<'a>(
    state: &mut State,
    solving: bool,
    arg: &'a Arg,
) -> Result<Given<'a>, ElabFault>
    ensures { Gives given_seen result state.new (meaning.arg_means solving (arg_view arg.now) state.old) }
{
    match arg {
        Arg::ByPlace(tree) => {
            let value = expr(state, tree)?;
            Ok(Given {
                word: None,
                place: expr_place(tree),
                value,
            })
        }
        Arg::ByName(name, tree) => {
            let value = named_argument(state, solving, &name.name, tree)?;
            Ok(Given {
                word: Some(&name.name),
                place: name.place,
                value,
            })
        }
    }
}

/// The value of an argument that is given by name; one that is ignored has none.
#[cycle(eval)]
fn named_argument(
    state: &mut State,
    solving: bool,
    name: &Name,
    tree: &Expr,
) -> Result<Value, ElabFault>
    ensures { Gives meant result state.new ((if meaning.is_ignored solving name.now then done nothing else meaning.expr_means (expr_view tree.now)) state.old) }
{
    if solving && is_ignored_word(name) {
        return Ok(Value::Nothing);
    }
    expr(state, tree)
}

/// The indices between two brackets in order, of which the first is evaluated.
#[cycle(eval)]
fn indices_given(
    state: &mut State,
    first: Evaluated,
    others: &[Index],
) -> Result<Vec<Evaluated>, ElabFault>
    ensures { Gives (λ v. map evaluated v.items) result state.new (and_then (meaning.indices_mean (indices_of (map index_view others.now)) state.old) (λ is. done (evaluated first ∷ is))) }
{
    let mut indices = Vec::new(state.alloc());
    indices.push(first)?;
    for index in others {
        indices.push(index_given(state, index)?)?;
    }
    Ok(indices)
}

#[cycle(eval)]
fn index_given(state: &mut State, index: &Index) -> Result<Evaluated, ElabFault>
    ensures { Gives evaluated result state.new (meaning.index_means (index_view index.now) state.old) }
{
    match index {
        Index::At(tree) => Ok(Evaluated::Single(expr(state, tree)?)),
        Index::Slice { start, stop, step } => {
            let start = optional(state, start)?;
            let stop = optional(state, stop)?;
            let step = slice_step(state, step)?;
            Ok(Evaluated::Sliced { start, stop, step })
        }
    }
}

/// The step of a slice, where it has one.
#[cycle(eval)]
fn slice_step(state: &mut State, step: &Step) -> Result<Option<Value>, ElabFault>
    ensures { Gives (option_map meant) result state.new (meaning.step_means (step_view step.now) state.old) }
{
    match step {
        Step::Absent => Ok(None),
        Step::Colon(tree) => optional(state, tree),
    }
}

#[cycle(eval)]
fn optional(state: &mut State, tree: &Option<Expr>) -> Result<Option<Value>, ElabFault>
    ensures { Gives (option_map meant) result state.new (meaning.optional_means (optional_view tree.now) state.old) }
{
    match tree {
        Some(tree) => Ok(Some(expr(state, tree)?)),
        None => Ok(None),
    }
}

// ---- primaries

#[cycle(eval)]
fn primary(state: &mut State, tree: &Primary) -> Result<Value, ElabFault>
    ensures { Gives meant result state.new (meaning.primary_means (primary_view tree.now) state.old) }
{
    let alloc = state.alloc();
    match tree {
        Primary::Number(value, _) => Ok(number_value(alloc, *value)?),
        Primary::Text(bytes, _) => Ok(text(alloc, bytes)?),
        Primary::Name(name) => state.look(name),
        Primary::Truth(truth, _) => Ok(Value::Truth(*truth)),
        Primary::None(_) => Ok(Value::Nothing),
        Primary::Unit(_) => Ok(Value::Tuple(no_items(alloc)?)),
        Primary::Round(_, inner) => expr(state, inner),
        Primary::Tuple {
            place,
            first,
            rest,
            ..
        } => {
            let value = expr(state, first)?;
            Ok(Value::Tuple(items(state, *place, rest, value)?))
        }
        Primary::EmptyList(_) => Ok(Value::List(no_items(alloc)?)),
        Primary::List {
            place,
            first,
            rest,
            ..
        } => {
            let value = expr(state, first)?;
            Ok(Value::List(items(state, *place, rest, value)?))
        }
        Primary::Comprehension {
            place,
            element,
            for_place,
            name,
            source,
        } => {
            let value = expr(state, source)?;
            let through = items_through(*for_place, value)?;
            Ok(Value::List(elements(state, *place, &name.name, element, &through)?))
        }
    }
}

/// The items of a list or a tuple that opens at the place, of which the first is evaluated.
#[cycle(eval)]
fn items(
    state: &mut State,
    place: Place,
    others: &[Expr],
    first: Value,
) -> Result<Rc<Items>, ElabFault>
    ensures { (comma : Bool) → Gives (λ r. items_of r.value) result state.new (and_then (meaning.with_item place [] (done (meant first)) state.old)
        (meaning.more_items_mean place (more_items_of (map expr_view others.now) comma))) }
{
    let alloc = state.alloc();
    let mut items = Items::new(alloc);
    items.push(place, first)?;
    for tree in others {
        let value = expr(state, tree)?;
        items.push(place, value)?;
    }
    Ok(Rc::new(alloc, items)?)
}

/// The elements of a comprehension, whose list opens at the place.
#[cycle(eval)]
fn elements(
    state: &mut State,
    place: Place,
    name: &Name,
    element: &Expr,
    through: &Through,
) -> Result<Rc<Items>, ElabFault>
    ensures { Gives (λ r. items_of r.value) result state.new
        (turns place (first_place (expr_view element.now)) name.now (meaning.expr_means (expr_view element.now)) [] (through_seen through.now) state.old) }
{
    let alloc = state.alloc();
    let mut items = Items::new(alloc);
    for k in 0..through.count() {
        let value = through.item(alloc, k)?;
        let result = one_element(state, name, element, value)?;
        items.push(place, result)?;
    }
    Ok(Rc::new(alloc, items)?)
}

/// An element of a comprehension, with the name bound to an item meanwhile, and then again as it was.
#[cycle(eval)]
fn one_element(
    state: &mut State,
    name: &Name,
    element: &Expr,
    value: Value,
) -> Result<Value, ElabFault>
    ensures { Gives meant result state.new (turn (first_place (expr_view element.now)) name.now (meaning.expr_means (expr_view element.now)) (meant value) state.old) }
{
    state.step(expr_place(element))?;
    let before = state.bound_to(name)?;
    state.bind(name, value)?;
    let result = expr(state, element)?;
    state.restore(name, before)?;
    Ok(result)
}
