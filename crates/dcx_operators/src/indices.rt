//! Indices of values of any kind.
ghost use Rattle.std.specs.Prelude.{◌≡◌, ◌≤◌, IfOk, IfSome, map, length, option_map};
ghost use Rattle.std.specs.List.{All};
ghost use Rattle.dcx_shape.specs.Index.{HasStep};
ghost use Rattle.dcx_shape.specs.Slice.{counted as counted_on};
ghost use Rattle.dcx_arena.specs.Nodes.{positions};
ghost use Rattle.dcx_script_values.specs.declared.fault.ElabFault.TheVariants.{BadArgument as BadKind};
ghost use Rattle.dcx_script_values.specs.Values.{State as MeantState, or_fault};
ghost use Rattle.dcx_script_values.specs.Kinds as kinds;
ghost use Rattle.dcx_script_values.specs.Meant.{meant};
ghost use Rattle.dcx_script_values.specs.View.{Gives};
ghost use Rattle.dcx_operators.specs.Indices as meaning;
ghost use Rattle.dcx_operators.specs.View.{evaluated, nearest, nearest_pick};

use dcx_arena::NodeId;
use dcx_array::{index, pick};
use dcx_atom::Array;
use dcx_call::{Call, LinearCall};
use dcx_script_state::State;
use dcx_script_values::{ElabFault, Value, array_fault, as_plain, whole_number};
use dcx_shape::{Pick, Place, Slice};
use std::alloc::Global;

/// An index that was evaluated: a value, or the parts of a slice, of which each may be left out.
#[derive(Drop)]
pub enum Evaluated {
    /// A value.
    Single(Value),
    /// `start:stop:step`.
    Sliced {
        start: Option<Value>,
        stop: Option<Value>,
        step: Option<Value>,
    },
}

// ---- what is picked

/// The number of 64 bits that is nearest, which is outside of every side where the number is.
fn nearest(whole: i128) -> i64
    ensures { result ≡ nearest whole }
{
    whole.clamp(i64::MIN as i128, i64::MAX as i128) as i64
}

/// A whole number as an index counts it.
fn index_number(value: &Value) -> Option<i64>
    ensures { result ≡ option_map nearest (kinds.whole_number (meant value.now)) }
{
    Some(nearest(whole_number(value)?))
}

/// A part of a slice: left out, or a whole number; None where it is neither.
fn slice_part(part: &Option<Value>) -> Option<Option<i64>>
    ensures { result ≡ option_map (option_map nearest) (meaning.slice_part (option_map meant part.now)) }
{
    match part {
        None => Some(None),
        Some(value) => Some(Some(index_number(value)?)),
    }
}

/// The slice with this step; None where the step is 0.
fn slice_by(start: Option<i64>, stop: Option<i64>, step: i64) -> Option<Pick>
    ensures picks { result ≡ meaning.slice_by start stop step }
    ensures steps { IfSome result HasStep }
{
    if step == 0 {
        return None;
    }
    Some(Pick::Range(Slice { start, stop, step }))
}

/// The slice of these parts; None where a part is no whole number, or the step is 0.
fn slice_of(start: &Option<Value>, stop: &Option<Value>, step: &Option<Value>) -> Option<Pick>
    ensures picks { result ≡ option_map nearest_pick (meaning.slice_of (option_map meant start.now) (option_map meant stop.now) (option_map meant step.now)) }
    ensures steps { IfSome result HasStep }
{
    let start = slice_part(start)?;
    let stop = slice_part(stop)?;
    let step = slice_part(step)?;
    slice_by(start, stop, step.unwrap_or(1))
}

/// What an index picks; None where a part is no whole number, or the step is 0.
fn pick_of(index: &Evaluated) -> Option<Pick>
    ensures picks { result ≡ option_map nearest_pick (meaning.pick_of (evaluated index.now)) }
    ensures steps { IfSome result HasStep }
{
    match index {
        Evaluated::Single(value) => Some(Pick::At(index_number(value)?)),
        Evaluated::Sliced { start, stop, step } => slice_of(start, stop, step),
    }
}

/// What all indices pick; `BadArgument` where one picks nothing.
fn picks_of(alloc: Global, place: Place, indices: &[Evaluated]) -> Result<Vec<Pick>, ElabFault>
    ensures picks { (s : MeantState) → Gives (λ v. v.items) result s (or_fault (BadKind place) (option_map (map nearest_pick) (meaning.picks_of (map evaluated indices.now))) s) }
    ensures steps { IfOk result (λ v. All HasStep v.items) }
{
    let mut picks = Vec::with_capacity(alloc, indices.len())?;
    for index in indices {
        match pick_of(index) {
            Some(pick) => picks.push(pick)?,
            None => return Err(ElabFault::BadArgument(place)),
        }
    }
    Ok(picks)
}

// ---- what is indexed

/// The node of an index of a node.
fn index_node(
    state: &mut State,
    place: Place,
    node: NodeId,
    picks: &[Pick],
) -> Result<NodeId, ElabFault>
    requires { All HasStep picks.now }
    ensures { Gives (λ i. i.0) result state.new (meaning.index_node place node.0 picks.now state.old) }
{
    let from = state.shape(node);
    match index(state.alloc(), from, picks) {
        Ok(call) => state.push(place, Call::Linear(LinearCall::Index(call)), &[node]),
        Err(fault) => Err(array_fault(place, fault)),
    }
}

/// An index of a plain array; a plain number has none.
fn index_plain(
    alloc: Global,
    place: Place,
    array: &Array,
    picks: &[Pick],
) -> Result<Value, ElabFault>
    requires { All HasStep picks.now }
    ensures { (s : MeantState) → Gives meant result s (meaning.index_plain place array.now picks.now s) }
{
    if array.shape.rank() == 0 {
        return Err(ElabFault::BadArgument(place));
    }
    as_plain(alloc, place, pick(alloc, array, picks))
}

/// Where a whole number counts to in a list, from the end where it is negative.
fn counted(length: usize, whole: i64) -> i64
    requires { length ≤ 20000 }
    ensures { result ≡ counted_on length whole }
{
    if whole < 0 {
        whole + length as i64
    } else {
        whole
    }
}

/// The item of a list that stands at a number.
fn item_at(place: Place, values: &[Value], at: i64) -> Result<Value, ElabFault>
    ensures { (s : MeantState) → Gives meant result s (meaning.item_at place (map meant values.now) at s) }
{
    let Ok(i) = usize::try_from(at) else {
        return Err(ElabFault::IndexRange(place));
    };
    match values.get(i) {
        Some(value) => Ok(value.share()?),
        None => Err(ElabFault::IndexRange(place)),
    }
}

/// An index of a list: one whole number; a slice of a list is not offered.
fn index_list(place: Place, values: &[Value], picks: &[Pick]) -> Result<Value, ElabFault>
    requires { length values.now ≤ 20000 }
    ensures { (s : MeantState) → Gives meant result s (meaning.index_list place (map meant values.now) picks.now s) }
{
    match picks {
        [Pick::At(whole)] => item_at(place, values, counted(values.len(), *whole)),
        [Pick::Range(_)] => Err(ElabFault::NotOffered(place)),
        _ => Err(ElabFault::BadArgument(place)),
    }
}

// ---- indices behind a value

/// A plain array with indices behind it.
fn plain_indexed(
    alloc: Global,
    place: Place,
    array: &Array,
    indices: &[Evaluated],
) -> Result<Value, ElabFault>
    ensures { (s : MeantState) → Gives meant result s (meaning.with_picks place (map evaluated indices.now) (meaning.index_plain place array.now) s) }
{
    let picks = picks_of(alloc, place, indices)?;
    index_plain(alloc, place, array, &picks)
}

/// A node with indices behind it.
fn node_indexed(
    state: &mut State,
    place: Place,
    node: NodeId,
    indices: &[Evaluated],
) -> Result<NodeId, ElabFault>
    ensures { Gives (λ i. i.0) result state.new (meaning.with_picks place (map evaluated indices.now) (meaning.index_node place node.0) state.old) }
{
    let picks = picks_of(state.alloc(), place, indices)?;
    index_node(state, place, node, &picks)
}

/// A list with indices behind it.
fn list_indexed(
    alloc: Global,
    place: Place,
    values: &[Value],
    indices: &[Evaluated],
) -> Result<Value, ElabFault>
    requires { length values.now ≤ 20000 }
    ensures { (s : MeantState) → Gives meant result s (meaning.with_picks place (map evaluated indices.now) (meaning.index_list place (map meant values.now)) s) }
{
    let picks = picks_of(alloc, place, indices)?;
    index_list(place, values, &picks)
}

/// A value with indices behind it, whose `[` stands at the place.
///
/// `BadArgument` of a value without indices, and where a part of an index is no whole number or a step is 0, which come
/// first. Of an array or an expression then `ShapeClash` where there are more indices than sides, else the fault of the
/// first index that takes nothing: `IndexRange` of a whole number, `EmptyResult` of a slice. Of a list `IndexRange` where it
/// has no such item, `NotOffered` of a slice. `TooMany` where there would be too much.
pub fn index_value(
    state: &mut State,
    place: Place,
    value: Value,
    indices: &[Evaluated],
) -> Result<Value, ElabFault>
    ensures { Gives meant result state.new (meaning.index_value place (meant value) (map evaluated indices.now) state.old) }
{
    let alloc = state.alloc();
    match value {
        Value::Plain(array) => plain_indexed(alloc, place, &array, indices),
        Value::Expression(node) => {
            Ok(Value::Expression(node_indexed(state, place, node, indices)?))
        }
        Value::List(items) => list_indexed(alloc, place, items.values(), indices),
        _ => Err(ElabFault::BadArgument(place)),
    }
}
