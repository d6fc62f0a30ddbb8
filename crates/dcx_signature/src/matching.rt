//! How arguments are given, by position and by name, and the order of the faults that they cause.
ghost use Rattle.std.specs.Prelude.{◌≡◌, [], ◌∷◌, ◌++◌, IfOk, OnOk, filter, find, map, option_copied, option_map, slice_get};
ghost use Rattle.std.specs.List.{list_any, list_all};
ghost use Rattle.dcx_point.specs.Pairs.{same_name};
ghost use Rattle.dcx_shape.specs.Shape.{sides_of};
ghost use Rattle.dcx_arena.specs.Nodes.{sides_at};
ghost use Rattle.dcx_script_values.specs.Values.{State as MeantState};
ghost use Rattle.dcx_script_values.specs.Kinds.{reading, reading_sides};
ghost use Rattle.dcx_script_values.specs.Meant.{meant};
ghost use Rattle.dcx_script_values.specs.View.{Gives};
ghost use Rattle.dcx_signature.specs.Arguments as meaning;
ghost use Rattle.dcx_signature.specs.Seen.{argument_seen};
ghost use Rattle.dcx_signature.specs.View.{param_seen, row_seen, words, given_seen, assignment_seen};

use crate::fitting::fits;
use crate::table::{Param, Row, Takes, Way, is_word};
use dcx_arena::NodeId;
use dcx_script_values::{ElabFault, Tree, Value, plain_shape_of};
use dcx_shape::{Name, Place, Shape};
use std::alloc::{AllocError, Global};
use std::marker::Model;

/// An argument that was evaluated: the name by which it is given, its first byte, and its value.
#[derive(Drop)]
pub struct Given<'a> {
    pub word: Option<&'a Name>,
    pub place: Place,
    pub value: Value,
}

/// An argument, and what it is given for; `None` where it is given for nothing.
#[derive(Drop)]
struct Assignment<'a> {
    given: Given<'a>,
    param: Option<Param>,
}

/// What was given for an argument of a call.
#[derive(Drop)]
pub struct Argument {
    pub word: &'static str,
    pub value: Value,
}

/// What was given for the arguments of a call, in the order in which it was written, seen by contracts as a list of words
/// and values.
#[derive(Drop)]
pub struct Bound {
    arguments: Vec<Argument>,
}

impl Model for Bound {
    ghost use Rattle.std.specs.Prelude.{ℕ, List, map};
    ghost use Rattle.dcx_script_values.specs.Values.{Value as MeantValue};
    ghost use Rattle.dcx_signature.specs.Codes.{bound_code};
    ghost use Rattle.dcx_signature.specs.Seen.{argument_seen};

    ghost Value = { List (List ℕ × MeantValue) };

    ghost coded = { bound_code };

    ghost view = { λ b. map argument_seen b.arguments.items };
}

/// The value that was given for a word.
fn given_for<'a>(arguments: &'a [Argument], word: &str) -> Option<&'a Value>
    ensures { option_map meant (option_copied result) ≡ meaning.given_for word.now (map argument_seen arguments.now) }
{
    for argument in arguments {
        if word.as_bytes() == argument.word.as_bytes() {
            return Some(&argument.value);
        }
    }
    None
}

impl Bound {
    ghost use Rattle.std.specs.Prelude.{is_some};

    /// All arguments in order.
    pub fn arguments(&self) -> &[Argument]
        ensures { map argument_seen result.now ≡ self.now }
    {
        self.arguments.as_slice()
    }

    /// The value that was given for an argument.
    pub fn given(&self, word: &str) -> Option<&Value>
        ensures { option_map meant (option_copied result) ≡ meaning.given_for word.now self.now }
    {
        given_for(self.arguments.as_slice(), word)
    }

    /// Whether an argument was given.
    pub fn has(&self, word: &str) -> bool
        ensures { result ≡ is_some (meaning.given_for word.now self.now) }
    {
        self.given(word).is_some()
    }
}

// ---- what an argument is given for

/// The argument at this position among those that may be given by position.
fn listed_at(params: &[Param], position: usize) -> Option<Param>
    ensures { option_map param_seen result ≡ slice_get (filter (λ p. p.by_position) (map param_seen params.now)) position }
{
    let mut left = position;
    for param in params {
        if param.way.is_by_position() {
            if left == 0 {
                return Some(*param);
            }
            left -= 1;
        }
    }
    None
}

/// What more arguments by position are given for.
fn rest_param(rest: Option<Takes>) -> Option<Param>
    ensures { option_map param_seen result ≡ meaning.rest_param rest }
{
    match rest {
        Some(takes) => Some(Param {
            word: "",
            way: Way::MayByPosition,
            takes,
        }),
        None => None,
    }
}

/// The argument at this position.
fn at_position(row: &Row, position: usize) -> Option<Param>
    ensures { option_map param_seen result ≡ meaning.at_position (row_seen row.now) position }
{
    match listed_at(row.params, position) {
        Some(param) => Some(param),
        None => rest_param(row.rest),
    }
}

/// Whether an argument may be given by this name.
fn is_named(param: &Param, word: &Name) -> bool
    ensures { result ≡ meaning.is_named word.now (param_seen param.now) }
{
    param.way.is_by_name() && is_word(word, param.word)
}

/// The argument of this name.
fn of_word(row: &Row, word: &Name) -> Option<Param>
    ensures { option_map param_seen result ≡ meaning.of_word (row_seen row.now) word.now }
{
    for param in row.params {
        if is_named(param, word) {
            return Some(*param);
        }
    }
    None
}

/// Whether an argument of this name was given.
fn was_given(before: &[&str], word: &Name) -> bool
    ensures { result ≡ list_any (same_name word.now) (words before.now) }
{
    for known in before {
        if is_word(word, *known) {
            return true;
        }
    }
    false
}

/// What the next argument is given for: by position, unless one was given by name before, or by its name, unless it was
/// given; `None` where it is given for nothing. A name is sought in the row first, which is never long.
fn param_for(
    row: &Row,
    position: usize,
    named: bool,
    before: &[&str],
    word: Option<&Name>,
) -> Option<Param>
    ensures { option_map param_seen result ≡ meaning.param_for (row_seen row.now) position named (words before.now) (option_map (λ n. n.now) word.entry) }
{
    match word {
        None => {
            if named {
                return None;
            }
            at_position(row, position)
        }
        Some(word) => {
            let param = of_word(row, word)?;
            if was_given(before, word) {
                return None;
            }
            Some(param)
        }
    }
}

/// That an argument was given, where it was given for something.
fn push_word(before: &mut Vec<&'static str>, param: &Option<Param>) -> Result<(), AllocError>
    ensures { OnOk result (words before.new.items ≡ words before.old.items ++ meaning.word_of (option_map param_seen param.now)) }
{
    if let Some(param) = param {
        before.push(param.word)?;
    }
    Ok(())
}

/// Adds an argument with what it is given for, and that it was given.
fn push_match<'a>(
    matches: &mut Vec<Assignment<'a>>,
    before: &mut Vec<&'static str>,
    given: Given<'a>,
    param: Option<Param>,
) -> Result<(), AllocError>
    ensures matches { OnOk result (matches.new.items ≡ matches.old.items ++ (record { given = given.entry; param = param }) ∷ []) }
    ensures before { OnOk result (words before.new.items ≡ words before.old.items ++ meaning.word_of (option_map param_seen param)) }
{
    matches.push(Assignment { given, param })?;
    push_word(before, &param)?;
    Ok(())
}

/// What each argument is given for, as they are written.
fn matches_of<'a>(
    alloc: Global,
    row: &Row,
    given: Vec<Given<'a>>,
) -> Result<Vec<Assignment<'a>>, AllocError>
    ensures { IfOk result (λ v. map assignment_seen v.items ≡ meaning.matched (row_seen row.now) (map given_seen given.entry.items)) }
{
    let mut matches = Vec::new(alloc);
    let mut before: Vec<&'static str> = Vec::new(alloc);
    let mut named = false;
    for argument in given {
        let param = param_for(row, matches.len(), named, &before, argument.word);
        named = named || argument.word.is_some();
        push_match(&mut matches, &mut before, argument, param)?;
    }
    Ok(matches)
}

// ---- faults, in their order

/// The shape of a node: none of its sides where the tree doesn't have it.
fn node_shape(tree: &Tree, node: NodeId) -> Shape
    ensures { sides_of result ≡ sides_at tree.now node.0 }
{
    if node.0 < tree.nodes() {
        tree.shape(node)
    } else {
        Shape::scalar()
    }
}

/// The shape of what a value is where an expression is wanted.
fn value_shape(tree: &Tree, value: &Value) -> Option<Shape>
    ensures { option_map sides_of result ≡ reading_sides tree.now (reading (meant value.now)) }
{
    match value {
        Value::Expression(node) => Some(node_shape(tree, *node)),
        _ => plain_shape_of(value),
    }
}

/// Whether an argument is given for this word.
fn is_for(argument: &Assignment, word: &str) -> bool
    ensures { result ≡ meaning.is_for word.now (assignment_seen argument.now) }
{
    match &argument.param {
        Some(param) => word.as_bytes() == param.word.as_bytes(),
        None => false,
    }
}

/// The shape of what is given for x, where it is an operand.
fn shape_of_x(tree: &Tree, matches: &[Assignment]) -> Option<Shape>
    ensures { option_map sides_of result ≡ meaning.sides_of_x tree.now (meaning.bound_of (map assignment_seen matches.now)) }
{
    for argument in matches {
        if is_for(argument, "x") {
            return value_shape(tree, &argument.given.value);
        }
    }
    None
}

/// Whether an argument may be given for what it is given for.
fn is_right(x: Option<Shape>, argument: &Assignment) -> bool
    ensures { result ≡ meaning.is_right (option_map sides_of x) (assignment_seen argument.now).0 (assignment_seen argument.now).1 }
{
    match &argument.param {
        Some(param) => fits(x, param.takes, &argument.given.value),
        None => false,
    }
}

/// That each argument may be given for what it is given for, and else the fault of the first that may not.
fn all_right(x: Option<Shape>, matches: &[Assignment]) -> Result<(), ElabFault>
    ensures { (s : MeantState) → Gives (λ _. tt) result s (meaning.all_right (option_map sides_of x) (map assignment_seen matches.now) s) }
{
    for argument in matches {
        if !is_right(x, argument) {
            return Err(ElabFault::BadArgument(argument.given.place));
        }
    }
    Ok(())
}

/// Adds an argument under the word for which it is given, where it is given for something.
fn push_bound(arguments: &mut Vec<Argument>, argument: Assignment) -> Result<(), AllocError>
    ensures { OnOk result (map argument_seen arguments.new.items ≡ map argument_seen arguments.old.items ++ meaning.bound_of (assignment_seen argument.entry ∷ [])) }
{
    let Some(param) = argument.param else {
        drop(argument);
        return Ok(());
    };
    arguments.push(Argument {
        word: param.word,
        value: argument.given.value,
    })?;
    Ok(())
}

/// What was given, under the words for which it was given.
fn bound_of(alloc: Global, matches: Vec<Assignment>) -> Result<Bound, AllocError>
    ensures { IfOk result (λ b. b ≡ meaning.bound_of (map assignment_seen matches.entry.items)) }
{
    let mut arguments = Vec::new(alloc);
    for argument in matches {
        push_bound(&mut arguments, argument)?;
    }
    Ok(Bound { arguments })
}

/// Whether an argument is given, or may be left out.
fn is_given(bound: &Bound, param: &Param) -> bool
    ensures { result ≡ meaning.is_given bound.now (param_seen param.now) }
{
    !param.way.is_needed() || bound.has(param.word)
}

/// Whether each argument that must be given is.
fn are_given(row: &Row, bound: &Bound) -> bool
    ensures { result ≡ meaning.are_given (row_seen row.now) bound.now }
{
    for param in row.params {
        if !is_given(bound, param) {
            return false;
        }
    }
    bound.arguments().len() >= row.least
}

/// What was given for each argument of a call, whose called expression begins at the place, beside the nodes of a tree.
///
/// `BadArgument` at the first argument, as written, that is given for nothing or doesn't fit, and else at the called
/// expression where one is missing.
pub fn arguments(
    alloc: Global,
    tree: &Tree,
    place: Place,
    row: Row,
    given: Vec<Given>,
) -> Result<Bound, ElabFault>
    ensures { (s : MeantState) → Gives (λ b. b) result s (meaning.arguments tree.now place (row_seen row) (map given_seen given.entry.items) s) }
{
    let matches = matches_of(alloc, &row, given)?;
    let x = shape_of_x(tree, &matches);
    if let Err(fault) = all_right(x, &matches) {
        drop(matches);
        return Err(fault);
    }
    let bound = bound_of(alloc, matches)?;
    if !are_given(&row, &bound) {
        drop(bound);
        return Err(ElabFault::BadArgument(place));
    }
    Ok(bound)
}
