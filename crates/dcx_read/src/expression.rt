//! The descent over expressions: one function for each rule, that decides by the token at the front.
ghost use Rattle.std.specs.Prelude.{◌≡◌, ◌<◌, ◌≤◌, ◌∷◌, length, map, IfOk, IfSome};
ghost use Rattle.dcx_syntax.specs.declared.bracket.Bracket.TheVariants as brackets;
ghost use Rattle.dcx_read.specs.declared.role.Role.TheVariants as roles;
ghost use Rattle.dcx_syntax.specs.Terminal.{opens, plain};
ghost use Rattle.dcx_read.specs.Terminals.{terminals};
ghost use Rattle.dcx_syntax.specs.Terminal as marks_of;
ghost use Rattle.dcx_syntax.specs.Expressions.{exponent, no_trailer, indexed, slice, tuple, list, comprehension};
ghost use Rattle.dcx_syntax.specs.View.{
  args_of,
  items_of,
  more_items_of,
  indices_of,
  arg_view,
  index_view,
  primary_view,
  step_view,
  trailer_view,
  expr_view,
  factor_view,
  postfix_view,
  power_view,
  sum_view,
  term_view,
  optional_view,
};
ghost use Rattle.dcx_read.specs.Moves.{
  expr_s,
  sum_s,
  term_s,
  factor_s,
  power_s,
  exponent_s,
  postfix_s,
  trailers_s,
  args_s,
  arg_s,
  indices_s,
  index_s,
  optional_s,
  step_s,
  primary_s,
  after_round_s,
  after_square_s,
  items_s,
  round_goes_on,
  square_for,
  square_lists,
};
ghost use Rattle.dcx_read.specs.Leaves.{ReadsLeaf, EndsByComma};
ghost use Rattle.dcx_read.specs.Steps.{Reads, ReadsOne, ReadsPair, Makes, MakesOne, Front, Lacks, IsSigns};

use crate::front::*;
use crate::made::*;
use crate::role::Mark;
use dcx_shape::{Bytes, Place};
use dcx_syntax::*;
use dcx_tokens::Token;
use std::alloc::{AllocError, Global};

/// The signs at the front of the tokens, and the tokens behind them.
fn signs<'a>(alloc: Global, tokens: &'a [Token]) -> Result<(Signs, &'a [Token]), AllocError>
    ensures signs { IfOk result (λ x. IsSigns tokens.now x.0.items x.1.now) }
    ensures shorter { IfOk result (λ x. length x.1.now ≤ length tokens.now) }
{
    let mut all = Signs::new(alloc);
    let mut rest = tokens;
    'more: while let Some((sign, place, behind)) = eat_sign(rest) {
        all.push(Signed { sign, place })?;
        rest = behind;
    }
    Ok((all, rest))
}

/// A primary that is one token, and the tokens behind it.
fn leaf<'a>(
    alloc: Global,
    text: &[u8],
    tokens: &'a [Token],
) -> Result<Option<(Primary, &'a [Token])>, AllocError>
    ensures read { IfOk result (λ o. ReadsLeaf text.now tokens.now (λ x. (primary_view x.0, x.1.now)) o) }
    ensures shorter { IfOk result (λ o. IfSome o (λ x. length x.1.now < length tokens.now)) }
{
    if let Some((head, rest)) = eat_name(tokens) {
        let word = named(alloc, text, head)?;
        return Ok(Some((name_of(word), rest)));
    }
    if let Some((value, place, rest)) = eat_number(tokens) {
        return Ok(Some((number_of(value, place), rest)));
    }
    if let Some((head, rest)) = eat_text(tokens) {
        let bytes = slice(text, head).to_vec(alloc)?;
        return Ok(Some((text_of(Bytes::from_vec(bytes), head.place), rest)));
    }
    if let Some((truth, place, rest)) = eat_truth(tokens) {
        return Ok(Some((truth_of(truth, place), rest)));
    }
    match eat_none(tokens) {
        Some((place, rest)) => Ok(Some((none_of(place), rest))),
        None => Ok(None),
    }
}

/// A comparison, or what stands in its place, and the tokens behind it.
#[cycle(expression)]
pub fn expr<'a>(
    alloc: Global,
    text: &[u8],
    tokens: &'a [Token],
) -> Result<(Expr, &'a [Token]), Stop<'a>>
    ensures read { Reads expr_s text.now (λ x. (expr_view x.0, x.1.now)) result (terminals text.now tokens.now) }
    ensures shorter { IfOk result (λ x. length x.1.now < length tokens.now) }
{
    let (front, behind) = sum(alloc, text, tokens)?;
    let none = Vec::new(alloc);
    let mut read = ((front, none), behind);
    'more: while let Some((comparison, place, after)) = eat_comparison(read.1) {
        let operand = sum(alloc, text, after);
        let next = compared_of(comparison, place, operand);
        read = grown(read, next)?;
    }
    let ((first, others), rest) = read;
    Ok((expr_of(first, others), rest))
}

#[cycle(expression)]
fn sum<'a>(alloc: Global, text: &[u8], tokens: &'a [Token]) -> Result<(Sum, &'a [Token]), Stop<'a>>
    ensures read { Reads sum_s text.now (λ x. (sum_view x.0, x.1.now)) result (terminals text.now tokens.now) }
    ensures shorter { IfOk result (λ x. length x.1.now < length tokens.now) }
{
    let (front, behind) = term(alloc, text, tokens)?;
    let none = Vec::new(alloc);
    let mut read = ((front, none), behind);
    'more: while let Some((sign, place, after)) = eat_sign(read.1) {
        let operand = term(alloc, text, after);
        let next = added_of(sign, place, operand);
        read = grown(read, next)?;
    }
    let ((first, others), rest) = read;
    Ok((sum_of(first, others), rest))
}

#[cycle(expression)]
fn term<'a>(
    alloc: Global,
    text: &[u8],
    tokens: &'a [Token],
) -> Result<(Term, &'a [Token]), Stop<'a>>
    ensures read { Reads term_s text.now (λ x. (term_view x.0, x.1.now)) result (terminals text.now tokens.now) }
    ensures shorter { IfOk result (λ x. length x.1.now < length tokens.now) }
{
    let (front, behind) = factor(alloc, text, tokens)?;
    let none = Vec::new(alloc);
    let mut read = ((front, none), behind);
    'more: while let Some((scaling, place, after)) = eat_scaling(read.1) {
        let operand = factor(alloc, text, after);
        let next = scaled_of(scaling, place, operand);
        read = grown(read, next)?;
    }
    let ((first, others), rest) = read;
    Ok((term_of(first, others), rest))
}

#[cycle(expression)]
fn factor<'a>(
    alloc: Global,
    text: &[u8],
    tokens: &'a [Token],
) -> Result<(Factor, &'a [Token]), Stop<'a>>
    ensures read { Reads factor_s text.now (λ x. (factor_view x.0, x.1.now)) result (terminals text.now tokens.now) }
    ensures shorter { IfOk result (λ x. length x.1.now < length tokens.now) }
{
    let (before, behind) = signs(alloc, tokens)?;
    let (operand, rest) = power(alloc, text, behind)?;
    Ok((factor_of(before, operand), rest))
}

#[cycle(expression)]
fn power<'a>(
    alloc: Global,
    text: &[u8],
    tokens: &'a [Token],
) -> Result<(Power, &'a [Token]), Stop<'a>>
    ensures read { Reads power_s text.now (λ x. (power_view x.0, x.1.now)) result (terminals text.now tokens.now) }
    ensures shorter { IfOk result (λ x. length x.1.now < length tokens.now) }
{
    let (front, behind) = postfix(alloc, text, tokens)?;
    let none = Vec::new(alloc);
    let mut read = ((front, none), behind);
    'more: while let Some((place, after)) = eat(read.1, Mark::Power) {
        let operand = exponent(alloc, text, after);
        let next = raised_of(place, operand);
        read = grown(read, next)?;
    }
    let ((first, others), rest) = read;
    Ok((raised_power(first, others), rest))
}

/// The signs before what a power is raised to, and that.
#[cycle(expression)]
fn exponent<'a>(
    alloc: Global,
    text: &[u8],
    tokens: &'a [Token],
) -> Result<((Signs, Postfix), &'a [Token]), Stop<'a>>
    ensures read { Reads exponent_s text.now (λ x. (exponent x.0.0.items (postfix_view x.0.1), x.1.now)) result (terminals text.now tokens.now) }
    ensures shorter { IfOk result (λ x. length x.1.now < length tokens.now) }
{
    let (before, behind) = signs(alloc, tokens)?;
    beside(before, postfix(alloc, text, behind))
}

#[cycle(expression)]
fn postfix<'a>(
    alloc: Global,
    text: &[u8],
    tokens: &'a [Token],
) -> Result<(Postfix, &'a [Token]), Stop<'a>>
    ensures read { Reads postfix_s text.now (λ x. (postfix_view x.0, x.1.now)) result (terminals text.now tokens.now) }
    ensures shorter { IfOk result (λ x. length x.1.now < length tokens.now) }
{
    let (front, behind) = primary(alloc, text, tokens)?;
    let none = Vec::new(alloc);
    let mut read = ((front, none), behind);
    'more: while let Some(next) = trailer(alloc, text, read.1).transpose() {
        read = grown(read, next)?;
    }
    let ((first, trailers), rest) = read;
    Ok((postfix_of(first, trailers), rest))
}

/// What follows a primary: an attribute, a call or an index, if one stands at the front.
#[cycle(expression)]
fn trailer<'a>(
    alloc: Global,
    text: &[u8],
    tokens: &'a [Token],
) -> Result<Option<(Trailer, &'a [Token])>, Stop<'a>>
    ensures read { ReadsOne trailers_s text.now no_trailer (λ x. (trailer_view x.0, x.1.now)) result (terminals text.now tokens.now) }
    ensures shorter { IfOk result (λ o. IfSome o (λ x. length x.1.now < length tokens.now)) }
{
    if let Some((_, behind)) = eat(tokens, Mark::Dot) {
        let (word, rest) = name(alloc, text, behind)?;
        return Ok(Some((attribute_of(word), rest)));
    }
    if let Some((place, inside)) = eat(tokens, Mark::Opens(Bracket::Round)) {
        return call(alloc, text, place, tokens, inside);
    }
    match eat(tokens, Mark::Opens(Bracket::Square)) {
        Some((place, within)) => indexed(alloc, text, place, tokens, within),
        None => Ok(None),
    }
}

/// A call whose bracket is the first of the tokens, at this place.
#[cycle(expression)]
fn call<'a>(
    alloc: Global,
    text: &[u8],
    place: Place,
    tokens: &'a [Token],
    inside: &'a [Token],
) -> Result<Option<(Trailer, &'a [Token])>, Stop<'a>>
    requires front { Front (roles.Opens brackets.Round) place tokens.now inside.now }
    ensures read { ReadsOne trailers_s text.now no_trailer (λ x. (trailer_view x.0, x.1.now)) result (terminals text.now tokens.now) }
    ensures shorter { IfOk result (λ o. IfSome o (λ x. length x.1.now < length tokens.now)) }
{
    let (all, comma, closing) = args(alloc, text, inside)?;
    let outside = expect(closing, Mark::Closes(Bracket::Round))?;
    Ok(Some((call_of(place, all, comma), outside)))
}

/// The index at this place, where its parts were read.
fn index_made<'a>(
    place: Place,
    parts: Result<((Index, Vec<Index>), &'a [Token]), Stop<'a>>,
) -> Result<Option<(Trailer, &'a [Token])>, Stop<'a>>
    ensures { MakesOne (λ x. (trailer_view x.0, x.1.now)) (λ x. ((λ y. indexed place (index_view x.0.0) (indices_of (map index_view x.0.1.items)) y), x.1.now)) result parts.entry }
{
    match parts {
        Ok(((first, others), rest)) => Ok(Some((index_of(place, first, others), rest))),
        Err(stop) => Err(stop),
    }
}

/// An index whose bracket is the first of the tokens, at this place.
#[cycle(expression)]
fn indexed<'a>(
    alloc: Global,
    text: &[u8],
    place: Place,
    tokens: &'a [Token],
    within: &'a [Token],
) -> Result<Option<(Trailer, &'a [Token])>, Stop<'a>>
    requires front { Front (roles.Opens brackets.Square) place tokens.now within.now }
    ensures read { ReadsOne trailers_s text.now no_trailer (λ x. (trailer_view x.0, x.1.now)) result (terminals text.now tokens.now) }
    ensures shorter { IfOk result (λ o. IfSome o (λ x. length x.1.now < length tokens.now)) }
{
    let (first, after) = index(alloc, text, within)?;
    let others = indices(alloc, text, after);
    index_made(
        place,
        beside(first, closed(others, Mark::Closes(Bracket::Square))),
    )
}

/// The indices behind the first one.
#[cycle(expression)]
fn indices<'a>(
    alloc: Global,
    text: &[u8],
    tokens: &'a [Token],
) -> Result<(Vec<Index>, &'a [Token]), Stop<'a>>
    ensures read { Reads indices_s text.now (λ x. (indices_of (map index_view x.0.items), x.1.now)) result (terminals text.now tokens.now) }
    ensures shorter { IfOk result (λ x. length x.1.now ≤ length tokens.now) }
{
    let mut all = Vec::new(alloc);
    let mut rest = tokens;
    'more: while let Some((_, behind)) = eat(rest, Mark::Comma) {
        let (item, next) = index(alloc, text, behind)?;
        all.push(item)?;
        rest = next;
    }
    Ok((all, rest))
}

/// The arguments of a call, and whether a comma ends them.
#[cycle(expression)]
fn args<'a>(
    alloc: Global,
    text: &[u8],
    tokens: &'a [Token],
) -> Result<(Vec<Arg>, bool, &'a [Token]), Stop<'a>>
    ensures read { Reads args_s text.now (λ x. (args_of (map arg_view x.0.items) x.1, x.2.now)) result (terminals text.now tokens.now) }
    ensures shorter { IfOk result (λ x. length x.2.now ≤ length tokens.now) }
{
    let mut all = Vec::new(alloc);
    if !starts_expr(tokens) {
        return Ok((all, false, tokens));
    }
    let mut rest = tokens;
    'more: while starts_expr(rest) {
        let (item, behind) = arg(alloc, text, rest)?;
        all.push(item)?;
        let Some((_, next)) = eat(behind, Mark::Comma) else {
            return Ok((all, false, behind));
        };
        rest = next;
    }
    Ok((all, true, rest))
}

#[cycle(expression)]
fn arg<'a>(alloc: Global, text: &[u8], tokens: &'a [Token]) -> Result<(Arg, &'a [Token]), Stop<'a>>
    ensures read { Reads arg_s text.now (λ x. (arg_view x.0, x.1.now)) result (terminals text.now tokens.now) }
    ensures shorter { IfOk result (λ x. length x.1.now < length tokens.now) }
{
    if let Some((head, _, behind)) = eat_name_and(tokens, Mark::Equal) {
        let word = named(alloc, text, head)?;
        let (value, after) = expr(alloc, text, behind)?;
        return Ok((by_name_of(word, value), after));
    }
    let (value, rest) = expr(alloc, text, tokens)?;
    Ok((by_place_of(value), rest))
}

/// The items behind a comma, up to the bracket's end, and whether a comma is the last of all.
#[cycle(expression)]
fn items<'a>(
    alloc: Global,
    text: &[u8],
    tokens: &'a [Token],
) -> Result<((Vec<Expr>, bool), &'a [Token]), Stop<'a>>
    ensures read { Reads items_s text.now (λ x. (items_of (map expr_view x.0.0.items) x.0.1, x.1.now)) result (terminals text.now tokens.now) }
    ensures comma { IfOk result (λ x. EndsByComma x.0.0.items x.0.1) }
    ensures shorter { IfOk result (λ x. length x.1.now ≤ length tokens.now) }
{
    let mut all = Vec::new(alloc);
    let mut rest = tokens;
    'more: while starts_expr(rest) {
        let (item, behind) = expr(alloc, text, rest)?;
        all.push(item)?;
        let Some((_, next)) = eat(behind, Mark::Comma) else {
            return Ok(((all, false), behind));
        };
        rest = next;
    }
    Ok(((all, true), rest))
}

#[cycle(expression)]
fn index<'a>(
    alloc: Global,
    text: &[u8],
    tokens: &'a [Token],
) -> Result<(Index, &'a [Token]), Stop<'a>>
    ensures read { Reads index_s text.now (λ x. (index_view x.0, x.1.now)) result (terminals text.now tokens.now) }
    ensures shorter { IfOk result (λ x. length x.1.now < length tokens.now) }
{
    let Some((_, inside)) = eat(tokens, Mark::Colon) else {
        return at_or_slice(alloc, text, tokens);
    };
    slice_made(beside(None, slice_end(alloc, text, inside)))
}

/// An index that an expression begins.
#[cycle(expression)]
fn at_or_slice<'a>(
    alloc: Global,
    text: &[u8],
    tokens: &'a [Token],
) -> Result<(Index, &'a [Token]), Stop<'a>>
    requires begun { Lacks roles.Colon tokens.now }
    ensures read { Reads index_s text.now (λ x. (index_view x.0, x.1.now)) result (terminals text.now tokens.now) }
    ensures shorter { IfOk result (λ x. length x.1.now < length tokens.now) }
{
    let (first, behind) = expr(alloc, text, tokens)?;
    let Some((_, after)) = eat(behind, Mark::Colon) else {
        return Ok((at_of(first), behind));
    };
    slice_made(beside(Some(first), slice_end(alloc, text, after)))
}

/// The end and the step of a slice, behind its first colon.
#[cycle(expression)]
fn slice_end<'a>(
    alloc: Global,
    text: &[u8],
    tokens: &'a [Token],
) -> Result<((Option<Expr>, Step), &'a [Token]), Stop<'a>>
    ensures read { ReadsPair optional_s step_s text.now (λ x. ((optional_view x.0.0, step_view x.0.1), x.1.now)) result (terminals text.now tokens.now) }
    ensures shorter { IfOk result (λ x. length x.1.now ≤ length tokens.now) }
{
    let (stop, middle) = optional(alloc, text, tokens)?;
    beside(stop, step(alloc, text, middle))
}

/// The slice, where its parts were read.
fn slice_made<'a>(
    parts: Result<((Option<Expr>, (Option<Expr>, Step)), &'a [Token]), Stop<'a>>,
) -> Result<(Index, &'a [Token]), Stop<'a>>
    ensures { Makes (λ x. (index_view x.0, x.1.now)) (λ x. (slice (optional_view x.0.0) (optional_view x.0.1.0) (step_view x.0.1.1), x.1.now)) result parts.entry }
{
    match parts {
        Ok(((start, (stop, by)), rest)) => Ok((slice_of(start, stop, by), rest)),
        Err(stop) => Err(stop),
    }
}

#[cycle(expression)]
fn optional<'a>(
    alloc: Global,
    text: &[u8],
    tokens: &'a [Token],
) -> Result<(Option<Expr>, &'a [Token]), Stop<'a>>
    ensures read { Reads optional_s text.now (λ x. (optional_view x.0, x.1.now)) result (terminals text.now tokens.now) }
    ensures shorter { IfOk result (λ x. length x.1.now ≤ length tokens.now) }
{
    if !starts_expr(tokens) {
        return Ok((None, tokens));
    }
    let (value, rest) = expr(alloc, text, tokens)?;
    Ok((Some(value), rest))
}

#[cycle(expression)]
fn step<'a>(
    alloc: Global,
    text: &[u8],
    tokens: &'a [Token],
) -> Result<(Step, &'a [Token]), Stop<'a>>
    ensures read { Reads step_s text.now (λ x. (step_view x.0, x.1.now)) result (terminals text.now tokens.now) }
    ensures shorter { IfOk result (λ x. length x.1.now ≤ length tokens.now) }
{
    let Some((_, behind)) = eat(tokens, Mark::Colon) else {
        return Ok((absent_step(), tokens));
    };
    let (value, rest) = optional(alloc, text, behind)?;
    Ok((step_of(value), rest))
}

#[cycle(expression)]
fn primary<'a>(
    alloc: Global,
    text: &[u8],
    tokens: &'a [Token],
) -> Result<(Primary, &'a [Token]), Stop<'a>>
    ensures read { Reads primary_s text.now (λ x. (primary_view x.0, x.1.now)) result (terminals text.now tokens.now) }
    ensures shorter { IfOk result (λ x. length x.1.now < length tokens.now) }
{
    if let Some((found, rest)) = leaf(alloc, text, tokens)? {
        return Ok((found, rest));
    }
    if let Some((place, inside)) = eat(tokens, Mark::Opens(Bracket::Round)) {
        return round(alloc, text, place, inside);
    }
    let Some((place, within)) = eat(tokens, Mark::Opens(Bracket::Square)) else {
        return Err(Stop::At(tokens));
    };
    square(alloc, text, place, within)
}

/// What a round bracket at this place holds, and the tokens behind its end.
#[cycle(expression)]
fn round<'a>(
    alloc: Global,
    text: &[u8],
    place: Place,
    tokens: &'a [Token],
) -> Result<(Primary, &'a [Token]), Stop<'a>>
    ensures read { Reads primary_s text.now (λ x. (primary_view x.0, x.1.now)) result (opens brackets.Round place ∷ terminals text.now tokens.now) }
    ensures shorter { IfOk result (λ x. length x.1.now < length tokens.now) }
{
    if let Some((_, outside)) = eat(tokens, Mark::Closes(Bracket::Round)) {
        return Ok((unit_of(place), outside));
    }
    let (first, behind) = expr(alloc, text, tokens)?;
    if let Some((_, beyond)) = eat(behind, Mark::Closes(Bracket::Round)) {
        let only = round_of(alloc, place, first)?;
        return Ok((only, beyond));
    }
    tuple_made(alloc, place, beside(first, tuple_end(alloc, text, behind)))
}

/// The items of a tuple behind the first one, and its end.
#[cycle(expression)]
fn tuple_end<'a>(
    alloc: Global,
    text: &[u8],
    tokens: &'a [Token],
) -> Result<((Vec<Expr>, bool), &'a [Token]), Stop<'a>>
    requires goes_on { Lacks (roles.Closes brackets.Round) tokens.now }
    ensures read { Reads after_round_s text.now (λ x. (round_goes_on (items_of (map expr_view x.0.0.items) x.0.1), x.1.now)) result (terminals text.now tokens.now) }
    ensures shorter { IfOk result (λ x. length x.1.now < length tokens.now) }
{
    let after = expect(tokens, Mark::Comma)?;
    closed(items(alloc, text, after), Mark::Closes(Bracket::Round))
}

/// The tuple at this place, where its parts were read.
fn tuple_made<'a>(
    alloc: Global,
    place: Place,
    parts: Result<((Expr, (Vec<Expr>, bool)), &'a [Token]), Stop<'a>>,
) -> Result<(Primary, &'a [Token]), Stop<'a>>
    ensures { Makes (λ x. (primary_view x.0, x.1.now)) (λ x. (tuple place (expr_view x.0.0) (items_of (map expr_view x.0.1.0.items) x.0.1.1), x.1.now)) result parts.entry }
{
    match parts {
        Ok(((first, (others, comma)), rest)) => match tuple_of(alloc, place, first, others, comma) {
            Ok(all) => Ok((all, rest)),
            Err(_) => Err(Stop::Memory),
        },
        Err(stop) => Err(stop),
    }
}

/// What a square bracket at this place holds, and the tokens behind its end.
#[cycle(expression)]
fn square<'a>(
    alloc: Global,
    text: &[u8],
    place: Place,
    tokens: &'a [Token],
) -> Result<(Primary, &'a [Token]), Stop<'a>>
    ensures read { Reads primary_s text.now (λ x. (primary_view x.0, x.1.now)) result (opens brackets.Square place ∷ terminals text.now tokens.now) }
    ensures shorter { IfOk result (λ x. length x.1.now < length tokens.now) }
{
    if let Some((_, outside)) = eat(tokens, Mark::Closes(Bracket::Square)) {
        return Ok((empty_list_of(place), outside));
    }
    let (first, behind) = expr(alloc, text, tokens)?;
    match eat(behind, Mark::For) {
        Some((for_place, word)) => {
            let parts = beside(first, source(alloc, text, for_place, word));
            comprehension_made(alloc, place, for_place, parts)
        }
        None => list_made(alloc, place, beside(first, list_end(alloc, text, behind))),
    }
}

/// The items of a list behind the first one, and its end.
#[cycle(expression)]
fn list_end<'a>(
    alloc: Global,
    text: &[u8],
    tokens: &'a [Token],
) -> Result<((Vec<Expr>, bool), &'a [Token]), Stop<'a>>
    requires lists { Lacks roles.For tokens.now }
    ensures read { Reads after_square_s text.now (λ x. (square_lists (more_items_of (map expr_view x.0.0.items) x.0.1), x.1.now)) result (terminals text.now tokens.now) }
    ensures shorter { IfOk result (λ x. length x.1.now < length tokens.now) }
{
    if let Some((_, after)) = eat(tokens, Mark::Comma) {
        return closed(items(alloc, text, after), Mark::Closes(Bracket::Square));
    }
    let rest = expect(tokens, Mark::Closes(Bracket::Square))?;
    let none = Vec::new(alloc);
    Ok(((none, false), rest))
}

/// The list at this place, where its parts were read.
fn list_made<'a>(
    alloc: Global,
    place: Place,
    parts: Result<((Expr, (Vec<Expr>, bool)), &'a [Token]), Stop<'a>>,
) -> Result<(Primary, &'a [Token]), Stop<'a>>
    ensures { Makes (λ x. (primary_view x.0, x.1.now)) (λ x. (list place (expr_view x.0.0) (more_items_of (map expr_view x.0.1.0.items) x.0.1.1), x.1.now)) result parts.entry }
{
    match parts {
        Ok(((first, (others, comma)), rest)) => match list_of(alloc, place, first, others, comma) {
            Ok(all) => Ok((all, rest)),
            Err(_) => Err(Stop::Memory),
        },
        Err(stop) => Err(stop),
    }
}

/// The comprehension at this place, where its parts were read.
fn comprehension_made<'a>(
    alloc: Global,
    place: Place,
    for_place: Place,
    parts: Result<((Expr, (Named, Expr)), &'a [Token]), Stop<'a>>,
) -> Result<(Primary, &'a [Token]), Stop<'a>>
    ensures { Makes (λ x. (primary_view x.0, x.1.now)) (λ x. (comprehension place (expr_view x.0.0) for_place x.0.1.0 (expr_view x.0.1.1), x.1.now)) result parts.entry }
{
    match parts {
        Ok(((first, (each, from)), rest)) => {
            match comprehension_of(alloc, place, first, for_place, each, from) {
                Ok(all) => Ok((all, rest)),
                Err(_) => Err(Stop::Memory),
            }
        }
        Err(stop) => Err(stop),
    }
}

/// What stands behind the word `for` of a comprehension: the name, and what it goes over.
#[cycle(expression)]
fn source<'a>(
    alloc: Global,
    text: &[u8],
    place: Place,
    tokens: &'a [Token],
) -> Result<((Named, Expr), &'a [Token]), Stop<'a>>
    ensures read { Reads after_square_s text.now (λ x. (square_for place x.0.0 (expr_view x.0.1), x.1.now)) result (plain (marks_of.for place) ∷ terminals text.now tokens.now) }
    ensures shorter { IfOk result (λ x. length x.1.now < length tokens.now) }
{
    let (each, after) = closed(name(alloc, text, tokens), Mark::In)?;
    let parts = beside(each, expr(alloc, text, after));
    closed(parts, Mark::Closes(Bracket::Square))
}
