//! Trees from their parts.

ghost use Rattle.std.specs.Prelude.{◌≡◌, map, IfOk};
ghost use Rattle.dcx_syntax.specs.Expressions.{
  expr,
  no_comparison,
  compared,
  sum,
  no_addition,
  added,
  term,
  no_scaling,
  scaled,
  factor,
  power_of,
  no_power,
  raised,
  exponent,
  postfix,
  no_trailer,
  attribute,
  call,
  indexed,
  by_place,
  by_name,
  at,
  slice,
  no_step,
  step,
  number_at,
  text_at,
  name_at,
  truth_at,
  none_at,
  unit,
  round,
  tuple,
  empty_list,
  list,
  comprehension,
};
ghost use Rattle.dcx_syntax.specs.Statements.{nothing, importing, assign, add_to, set_value, evaluate, prints, repeats};
ghost use Rattle.dcx_syntax.specs.View.{
  line_view,
  lines_of,
  chained,
  args_of,
  items_of,
  more_items_of,
  indices_of,
  arg_view,
  index_view,
  primary_view,
  step_view,
  trailer_view,
  added_view,
  compared_view,
  expr_view,
  factor_view,
  postfix_view,
  power_view,
  raised_view,
  scaled_view,
  sum_view,
  term_view,
  optional_view,
};
ghost use Rattle.dcx_read.specs.Steps.{Makes};

use crate::front::Stop;
use dcx_frac::Frac;
use dcx_shape::{Bytes, Place};
use dcx_syntax::*;
use dcx_tokens::Token;
use std::alloc::{AllocError, Global};

/// The value in a box, and what is kept beside it.
fn boxed<T: Drop, U: Drop>(alloc: Global, value: T, kept: U) -> Result<(Box<T>, U), AllocError>
    ensures value { IfOk result (λ x. x.0.value ≡ value) }
    ensures kept { IfOk result (λ x. x.1 ≡ kept) }
{
    let boxed = Box::new(alloc, value)?;
    Ok((boxed, kept))
}

pub fn expr_of(first: Sum, rest: Vec<Compared>) -> Expr
    ensures { expr_view result ≡ expr (sum_view first) (chained (map compared_view rest.items) no_comparison) }
{
    Expr { first, rest }
}

/// The compared operand, where it was read.
pub fn compared_of<'a>(
    comparison: Comparison,
    place: Place,
    operand: Result<(Sum, &'a [Token]), Stop<'a>>,
) -> Result<(Compared, &'a [Token]), Stop<'a>>
    ensures { Makes (λ x. (compared_view x.0, x.1.now)) (λ y. ((λ x. compared comparison place (sum_view y.0) x), y.1.now)) result operand.entry }
{
    match operand {
        Ok((sum, rest)) => {
            let compared = Compared {
                comparison,
                place,
                sum,
            };
            Ok((compared, rest))
        }
        Err(stop) => Err(stop),
    }
}

pub fn sum_of(first: Term, rest: Vec<Added>) -> Sum
    ensures { sum_view result ≡ sum (term_view first) (chained (map added_view rest.items) no_addition) }
{
    Sum { first, rest }
}

/// The added operand, where it was read.
pub fn added_of<'a>(
    sign: Sign,
    place: Place,
    operand: Result<(Term, &'a [Token]), Stop<'a>>,
) -> Result<(Added, &'a [Token]), Stop<'a>>
    ensures { Makes (λ x. (added_view x.0, x.1.now)) (λ y. ((λ x. added sign place (term_view y.0) x), y.1.now)) result operand.entry }
{
    match operand {
        Ok((term, rest)) => {
            let added = Added { sign, place, term };
            Ok((added, rest))
        }
        Err(stop) => Err(stop),
    }
}

pub fn term_of(first: Factor, rest: Vec<Scaled>) -> Term
    ensures { term_view result ≡ term (factor_view first) (chained (map scaled_view rest.items) no_scaling) }
{
    Term { first, rest }
}

/// The scaled operand, where it was read.
pub fn scaled_of<'a>(
    scaling: Scaling,
    place: Place,
    operand: Result<(Factor, &'a [Token]), Stop<'a>>,
) -> Result<(Scaled, &'a [Token]), Stop<'a>>
    ensures { Makes (λ x. (scaled_view x.0, x.1.now)) (λ y. ((λ x. scaled scaling place (factor_view y.0) x), y.1.now)) result operand.entry }
{
    match operand {
        Ok((factor, rest)) => {
            let scaled = Scaled {
                scaling,
                place,
                factor,
            };
            Ok((scaled, rest))
        }
        Err(stop) => Err(stop),
    }
}

pub fn factor_of(signs: Signs, operand: Power) -> Factor
    ensures { factor_view result ≡ factor signs.items (power_view operand) }
{
    Factor {
        signs,
        power: operand,
    }
}

pub fn raised_power(first: Postfix, rest: Vec<Raised>) -> Power
    ensures { power_view result ≡ power_of (postfix_view first) (chained (map raised_view rest.items) no_power) }
{
    Power { first, rest }
}

/// The raised operand, where it was read with its signs.
pub fn raised_of<'a>(
    place: Place,
    operand: Result<((Signs, Postfix), &'a [Token]), Stop<'a>>,
) -> Result<(Raised, &'a [Token]), Stop<'a>>
    ensures { Makes (λ x. (raised_view x.0, x.1.now)) (λ y. ((λ x. raised place (exponent y.0.0.items (postfix_view y.0.1)) x), y.1.now)) result operand.entry }
{
    match operand {
        Ok(((signs, postfix), rest)) => {
            let raised = Raised {
                place,
                signs,
                postfix,
            };
            Ok((raised, rest))
        }
        Err(stop) => Err(stop),
    }
}

pub fn postfix_of(first: Primary, trailers: Vec<Trailer>) -> Postfix
    ensures { postfix_view result ≡ postfix (primary_view first) (chained (map trailer_view trailers.items) no_trailer) }
{
    Postfix {
        primary: first,
        trailers,
    }
}

pub fn attribute_of(name: Named) -> Trailer
    ensures { trailer_view result ≡ (λ x. attribute name x) }
{
    Trailer::Attribute(name)
}

pub fn call_of(place: Place, args: Vec<Arg>, comma: bool) -> Trailer
    ensures { trailer_view result ≡ (λ x. call place (args_of (map arg_view args.items) comma) x) }
{
    Trailer::Call { place, args, comma }
}

pub fn index_of(place: Place, first: Index, rest: Vec<Index>) -> Trailer
    ensures { trailer_view result ≡ (λ x. indexed place (index_view first) (indices_of (map index_view rest.items)) x) }
{
    Trailer::Index { place, first, rest }
}

pub fn by_place_of(value: Expr) -> Arg
    ensures { arg_view result ≡ by_place (expr_view value) }
{
    Arg::ByPlace(value)
}

pub fn by_name_of(name: Named, value: Expr) -> Arg
    ensures { arg_view result ≡ by_name name (expr_view value) }
{
    Arg::ByName(name, value)
}

pub fn at_of(value: Expr) -> Index
    ensures { index_view result ≡ at (expr_view value) }
{
    Index::At(value)
}

pub fn slice_of(start: Option<Expr>, stop: Option<Expr>, by: Step) -> Index
    ensures { index_view result ≡ slice (optional_view start) (optional_view stop) (step_view by) }
{
    Index::Slice {
        start,
        stop,
        step: by,
    }
}

pub fn absent_step() -> Step
    ensures { step_view result ≡ no_step }
{
    Step::Absent
}

pub fn step_of(by: Option<Expr>) -> Step
    ensures { step_view result ≡ step (optional_view by) }
{
    Step::Colon(by)
}

pub fn number_of(number: Frac, place: Place) -> Primary
    ensures { primary_view result ≡ number_at number place }
{
    Primary::Number(number, place)
}

pub fn text_of(bytes: Bytes, place: Place) -> Primary
    ensures { primary_view result ≡ text_at bytes place }
{
    Primary::Text(bytes, place)
}

pub fn name_of(name: Named) -> Primary
    ensures { primary_view result ≡ name_at name }
{
    Primary::Name(name)
}

pub fn truth_of(truth: bool, place: Place) -> Primary
    ensures { primary_view result ≡ truth_at truth place }
{
    Primary::Truth(truth, place)
}

pub fn none_of(place: Place) -> Primary
    ensures { primary_view result ≡ none_at place }
{
    Primary::None(place)
}

pub fn unit_of(place: Place) -> Primary
    ensures { primary_view result ≡ unit place }
{
    Primary::Unit(place)
}

pub fn round_of(alloc: Global, place: Place, inner: Expr) -> Result<Primary, AllocError>
    ensures { IfOk result (λ x. primary_view x ≡ round place (expr_view inner)) }
{
    Ok(Primary::Round(place, Box::new(alloc, inner)?))
}

pub fn tuple_of(
    alloc: Global,
    place: Place,
    first: Expr,
    rest: Vec<Expr>,
    comma: bool,
) -> Result<Primary, AllocError>
    ensures { IfOk result (λ x. primary_view x ≡ tuple place (expr_view first) (items_of (map expr_view rest.items) comma)) }
{
    Ok(Primary::Tuple {
        place,
        first: Box::new(alloc, first)?,
        rest,
        comma,
    })
}

pub fn empty_list_of(place: Place) -> Primary
    ensures { primary_view result ≡ empty_list place }
{
    Primary::EmptyList(place)
}

pub fn list_of(
    alloc: Global,
    place: Place,
    first: Expr,
    rest: Vec<Expr>,
    comma: bool,
) -> Result<Primary, AllocError>
    ensures { IfOk result (λ x. primary_view x ≡ list place (expr_view first) (more_items_of (map expr_view rest.items) comma)) }
{
    Ok(Primary::List {
        place,
        first: Box::new(alloc, first)?,
        rest,
        comma,
    })
}

pub fn comprehension_of(
    alloc: Global,
    place: Place,
    element: Expr,
    for_place: Place,
    name: Named,
    source: Expr,
) -> Result<Primary, AllocError>
    ensures { IfOk result (λ x. primary_view x ≡ comprehension place (expr_view element) for_place name (expr_view source)) }
{
    let (element, (name, source)) = boxed(alloc, element, (name, source))?;
    let (source, (name, element)) = boxed(alloc, source, (name, element))?;
    Ok(Primary::Comprehension {
        place,
        element,
        for_place,
        name,
        source,
    })
}

/// The line that imports a module, where it was read.
pub fn import_of<'a>(
    import: Result<(Import, &'a [Token]), Stop<'a>>,
) -> Result<(Line, &'a [Token]), Stop<'a>>
    ensures { Makes (λ x. (line_view x.0, x.1.now)) (λ y. (importing y.0, y.1.now)) result import.entry }
{
    match import {
        Ok((import, rest)) => Ok((Line::Import(import), rest)),
        Err(stop) => Err(stop),
    }
}

/// The line that sets a name, where its parts were read.
pub fn assign_of<'a>(
    parts: Result<((Named, Expr), &'a [Token]), Stop<'a>>,
) -> Result<(Line, &'a [Token]), Stop<'a>>
    ensures { Makes (λ x. (line_view x.0, x.1.now)) (λ y. (assign y.0.0 (expr_view y.0.1), y.1.now)) result parts.entry }
{
    match parts {
        Ok(((name, value), rest)) => Ok((Line::Assign { name, value }, rest)),
        Err(stop) => Err(stop),
    }
}

/// The line that adds to what a name stands for, where its parts were read.
pub fn add_to_of<'a>(
    place: Place,
    parts: Result<((Named, Expr), &'a [Token]), Stop<'a>>,
) -> Result<(Line, &'a [Token]), Stop<'a>>
    ensures { Makes (λ x. (line_view x.0, x.1.now)) (λ y. (add_to y.0.0 place (expr_view y.0.1), y.1.now)) result parts.entry }
{
    match parts {
        Ok(((name, value), rest)) => Ok((Line::AddTo { name, place, value }, rest)),
        Err(stop) => Err(stop),
    }
}

/// The line that sets a value, where its parts were read.
pub fn set_value_of<'a>(
    place: Place,
    parts: Result<((Named, Expr), &'a [Token]), Stop<'a>>,
) -> Result<(Line, &'a [Token]), Stop<'a>>
    ensures { Makes (λ x. (line_view x.0, x.1.now)) (λ y. (set_value y.0.0 place (expr_view y.0.1), y.1.now)) result parts.entry }
{
    match parts {
        Ok(((name, value), rest)) => Ok((Line::SetValue { name, place, value }, rest)),
        Err(stop) => Err(stop),
    }
}

/// The line that is an expression, where it was read.
pub fn evaluate_of<'a>(
    value: Result<(Expr, &'a [Token]), Stop<'a>>,
) -> Result<(Line, &'a [Token]), Stop<'a>>
    ensures { Makes (λ x. (line_view x.0, x.1.now)) (λ y. (evaluate (expr_view y.0), y.1.now)) result value.entry }
{
    match value {
        Ok((value, rest)) => Ok((Line::Evaluate(value), rest)),
        Err(stop) => Err(stop),
    }
}

pub fn print_of(place: Place, opener: Place) -> Line
    ensures { line_view result ≡ prints place opener nothing }
{
    Line::Print {
        place,
        open: opener,
    }
}

pub fn for_of(
    alloc: Global,
    place: Place,
    name: Named,
    source: Expr,
    first: Line,
    rest: Vec<Line>,
) -> Result<Line, AllocError>
    ensures { IfOk result (λ x. line_view x ≡ repeats place name (expr_view source) (line_view first) (lines_of (map line_view rest.items))) }
{
    let (first, (name, source, rest)) = boxed(alloc, first, (name, source, rest))?;
    Ok(Line::For {
        place,
        name,
        source,
        first,
        rest,
    })
}
