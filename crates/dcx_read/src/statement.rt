//! The descent over lines: one function for each rule, that decides by the tokens at the front.
ghost use Rattle.std.specs.Prelude.{◌≡◌, ◌<◌, ◌≤◌, ◌∷◌, length, map, IfOk};
ghost use Rattle.dcx_syntax.specs.Terminal.{plain};
ghost use Rattle.dcx_read.specs.Terminals.{terminals};
ghost use Rattle.dcx_syntax.specs.Terminal as marks_of;
ghost use Rattle.dcx_syntax.specs.Statements.{importing, repeats};
ghost use Rattle.dcx_syntax.specs.View.{expr_view, line_view, lines_of};
ghost use Rattle.dcx_read.specs.Moves.{module_s, alias_s, line_s};
ghost use Rattle.dcx_read.specs.declared.role.Role.TheVariants as roles;
ghost use Rattle.dcx_read.specs.Steps.{Reads, Makes, Lacks};
ghost use Rattle.dcx_read.specs.Lines.{module_at, LacksPlain, BalancedTo, ReadsBalanced, ReadsEnded, ReadsLine, ReadsHead, ReadsBody, ReadsLines};

use crate::expression::expr;
use crate::front::*;
use crate::made::*;
use crate::role::Mark;
use dcx_shape::Place;
use dcx_syntax::*;
use dcx_tokens::Token;
use std::alloc::Global;

/// A module's name, and its place.
fn module<'a>(text: &[u8], tokens: &'a [Token]) -> Result<(Module, Place, &'a [Token]), Stop<'a>>
    ensures read { Reads module_s text.now (λ x. (module_at x.0 x.1, x.2.now)) result (terminals text.now tokens.now) }
    ensures shorter { IfOk result (λ x. length x.2.now < length tokens.now) }
{
    let Some((head, rest)) = eat_name(tokens) else {
        return Err(Stop::At(tokens));
    };
    match module_in(slice(text, head)) {
        Some(which) => Ok((which, head.place, rest)),
        None => Err(Stop::At(tokens)),
    }
}

/// The name that a module gets, if it gets one.
fn alias<'a>(
    alloc: Global,
    text: &[u8],
    tokens: &'a [Token],
) -> Result<(Option<Named>, &'a [Token]), Stop<'a>>
    ensures read { Reads alias_s text.now (λ x. (x.0, x.1.now)) result (terminals text.now tokens.now) }
    ensures shorter { IfOk result (λ x. length x.1.now ≤ length tokens.now) }
{
    let Some((_, behind)) = eat(tokens, Mark::As) else {
        return Ok((None, tokens));
    };
    let (word, rest) = name(alloc, text, behind)?;
    Ok((Some(word), rest))
}

/// What stands behind the word `import` at this place, up to the line's end.
fn import<'a>(
    alloc: Global,
    text: &[u8],
    place: Place,
    tokens: &'a [Token],
) -> Result<(Import, &'a [Token]), Stop<'a>>
    ensures read { Reads line_s text.now (λ x. (importing x.0, x.1.now)) result (plain (marks_of.import place) ∷ terminals text.now tokens.now) }
    ensures shorter { IfOk result (λ x. length x.1.now < length tokens.now) }
{
    let (which, module_place, behind) = module(text, tokens)?;
    let (called, end) = alias(alloc, text, behind)?;
    let rest = expect(end, Mark::Newline)?;
    Ok((
        Import {
            place,
            module: which,
            module_place,
            alias: called,
        },
        rest,
    ))
}

/// The tokens from the first bracket on.
fn behind_plain<'a>(text: &[u8], tokens: &'a [Token]) -> &'a [Token]
    ensures read { BalancedTo text.now tokens.now result.now }
    ensures ends { LacksPlain result.now }
    ensures shorter { length result.now ≤ length tokens.now }
{
    let mut rest = tokens;
    'more: while let Some(behind) = eat_plain(rest) {
        rest = behind;
    }
    rest
}

/// The tokens behind as many as stand between matching brackets: up to a bracket's end, or to the end of all.
fn balanced<'a>(text: &[u8], tokens: &'a [Token]) -> Result<&'a [Token], Stop<'a>>
    ensures read { ReadsBalanced text.now (λ x. x.now) result tokens.now }
    ensures shorter { IfOk result (λ x. length x.now ≤ length tokens.now) }
{
    let mut rest = behind_plain(text, tokens);
    'more: while let Some((bracket, _, inside)) = eat_opener(rest) {
        let closing = balanced(text, inside)?;
        let behind = expect(closing, Mark::Closes(bracket))?;
        rest = behind_plain(text, behind);
    }
    Ok(rest)
}

/// What stands behind the word `print` at this place, up to the line's end.
fn printed<'a>(
    text: &[u8],
    place: Place,
    tokens: &'a [Token],
) -> Result<(Line, &'a [Token]), Stop<'a>>
    ensures read { ReadsLine text.now (λ x. (line_view x.0, x.1.now)) result (plain (marks_of.print place) ∷ terminals text.now tokens.now) }
    ensures shorter { IfOk result (λ x. length x.1.now < length tokens.now) }
{
    let Some((opener, inside)) = eat(tokens, Mark::Opens(Bracket::Round)) else {
        return Err(Stop::At(tokens));
    };
    let closing = balanced(text, inside)?;
    let end = expect(closing, Mark::Closes(Bracket::Round))?;
    let rest = expect(end, Mark::Newline)?;
    Ok((print_of(place, opener), rest))
}

/// An expression and the line's end.
fn ended<'a>(
    alloc: Global,
    text: &[u8],
    tokens: &'a [Token],
) -> Result<(Expr, &'a [Token]), Stop<'a>>
    ensures read { ReadsEnded text.now (λ x. (expr_view x.0, x.1.now)) result tokens.now }
    ensures shorter { IfOk result (λ x. length x.1.now < length tokens.now) }
{
    closed(expr(alloc, text, tokens), Mark::Newline)
}

/// A line that sets a name or a value, or that evaluates an expression: the first token is no word that begins another.
fn simple<'a>(
    alloc: Global,
    text: &[u8],
    tokens: &'a [Token],
) -> Result<(Line, &'a [Token]), Stop<'a>>
    requires import { Lacks roles.Import tokens.now }
    requires print { Lacks roles.Print tokens.now }
    requires block { Lacks roles.For tokens.now }
    ensures read { ReadsLine text.now (λ x. (line_view x.0, x.1.now)) result (terminals text.now tokens.now) }
    ensures shorter { IfOk result (λ x. length x.1.now < length tokens.now) }
{
    if let Some((head, _, behind)) = eat_name_and(tokens, Mark::Equal) {
        let word = named(alloc, text, head)?;
        return assign_of(beside(word, ended(alloc, text, behind)));
    }
    if let Some((head, place, after)) = eat_name_and(tokens, Mark::PlusEqual) {
        let target = named(alloc, text, head)?;
        return add_to_of(place, beside(target, ended(alloc, text, after)));
    }
    if let Some((head, place, inside)) = eat_value(text, tokens) {
        let parameter = named(alloc, text, head)?;
        return set_value_of(place, beside(parameter, ended(alloc, text, inside)));
    }
    evaluate_of(ended(alloc, text, tokens))
}

/// A line that has no lines inside it.
fn flat<'a>(
    alloc: Global,
    text: &[u8],
    tokens: &'a [Token],
) -> Result<(Line, &'a [Token]), Stop<'a>>
    requires block { Lacks roles.For tokens.now }
    ensures read { ReadsLine text.now (λ x. (line_view x.0, x.1.now)) result (terminals text.now tokens.now) }
    ensures shorter { IfOk result (λ x. length x.1.now < length tokens.now) }
{
    if let Some((place, behind)) = eat(tokens, Mark::Import) {
        return import_of(import(alloc, text, place, behind));
    }
    if let Some((place, after)) = eat(tokens, Mark::Print) {
        return printed(text, place, after);
    }
    simple(alloc, text, tokens)
}

/// What stands behind the word `for` at this place: the name, what it goes over, and the tokens of the block's lines.
fn head<'a>(
    alloc: Global,
    text: &[u8],
    place: Place,
    tokens: &'a [Token],
) -> Result<((Named, Expr), &'a [Token]), Stop<'a>>
    ensures read { ReadsHead text.now place (λ x. (x.0.0, (expr_view x.0.1, x.1.now))) result (plain (marks_of.for place) ∷ terminals text.now tokens.now) }
    ensures shorter { IfOk result (λ x. length x.1.now < length tokens.now) }
{
    let (each, after) = closed(name(alloc, text, tokens), Mark::In)?;
    let parts = beside(each, expr(alloc, text, after));
    let headed = closed(parts, Mark::Colon);
    let ended = closed(headed, Mark::Newline);
    closed(ended, Mark::Indent)
}

/// The lines inside a `for` line, and what ends them.
#[cycle(statement)]
fn body<'a>(
    alloc: Global,
    text: &[u8],
    tokens: &'a [Token],
) -> Result<((Line, Vec<Line>), &'a [Token]), Stop<'a>>
    ensures read { ReadsBody text.now (λ x. ((line_view x.0.0, lines_of (map line_view x.0.1.items)), x.1.now)) result (terminals text.now tokens.now) }
    ensures shorter { IfOk result (λ x. length x.1.now < length tokens.now) }
{
    let (first, behind) = line(alloc, text, tokens)?;
    beside(first, closed(lines(alloc, text, behind), Mark::Dedent))
}

/// The whole `for` line, where its parts were read.
fn whole<'a>(
    alloc: Global,
    place: Place,
    parts: Result<(((Named, Expr), (Line, Vec<Line>)), &'a [Token]), Stop<'a>>,
) -> Result<(Line, &'a [Token]), Stop<'a>>
    ensures { Makes (λ x. (line_view x.0, x.1.now)) (λ x. (repeats place x.0.0.0 (expr_view x.0.0.1) (line_view x.0.1.0) (lines_of (map line_view x.0.1.1.items)), x.1.now)) result parts.entry }
{
    match parts {
        Ok((((each, from), (first, others)), rest)) => match for_of(
            alloc, place, each, from, first, others,
        ) {
            Ok(line) => Ok((line, rest)),
            Err(_) => Err(Stop::Memory),
        },
        Err(stop) => Err(stop),
    }
}

/// A `for` line and the lines inside it, behind the word `for` at this place.
#[cycle(statement)]
fn block<'a>(
    alloc: Global,
    text: &[u8],
    place: Place,
    tokens: &'a [Token],
) -> Result<(Line, &'a [Token]), Stop<'a>>
    ensures read { ReadsLine text.now (λ x. (line_view x.0, x.1.now)) result (plain (marks_of.for place) ∷ terminals text.now tokens.now) }
    ensures shorter { IfOk result (λ x. length x.1.now < length tokens.now) }
{
    let (begun, inside) = head(alloc, text, place, tokens)?;
    whole(alloc, place, beside(begun, body(alloc, text, inside)))
}

/// A line, with the lines inside it, and the tokens behind.
#[cycle(statement)]
fn line<'a>(
    alloc: Global,
    text: &[u8],
    tokens: &'a [Token],
) -> Result<(Line, &'a [Token]), Stop<'a>>
    ensures read { ReadsLine text.now (λ x. (line_view x.0, x.1.now)) result (terminals text.now tokens.now) }
    ensures shorter { IfOk result (λ x. length x.1.now < length tokens.now) }
{
    if let Some((place, behind)) = eat(tokens, Mark::For) {
        return block(alloc, text, place, behind);
    }
    flat(alloc, text, tokens)
}

/// The lines at the front of the tokens, and the tokens behind them.
#[cycle(statement)]
pub fn lines<'a>(
    alloc: Global,
    text: &[u8],
    tokens: &'a [Token],
) -> Result<(Vec<Line>, &'a [Token]), Stop<'a>>
    ensures read { ReadsLines text.now (λ x. (lines_of (map line_view x.0.items), x.1.now)) result (terminals text.now tokens.now) }
    ensures shorter { IfOk result (λ x. length x.1.now ≤ length tokens.now) }
{
    let mut all = Vec::new(alloc);
    let mut rest = tokens;
    'more: while starts_line(rest) {
        let (next, behind) = line(alloc, text, rest)?;
        all.push(next)?;
        rest = behind;
    }
    Ok((all, rest))
}
