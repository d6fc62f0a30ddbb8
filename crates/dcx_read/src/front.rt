//! What stands at the front of the tokens.
ghost use Rattle.std.specs.Prelude.{◌≡◌, ◌<◌, ◌≤◌, Bool, List, [], ◌∷◌, ◌++◌, length, IfOk, IfErr, IfSome, MatchOption};
ghost use Rattle.dcx_read.specs.declared.front.Stop.TheVariants as stops;
ghost use Rattle.dcx_read.specs.declared.role.Role.TheVariants as roles;
ghost use Rattle.dcx_syntax.specs.declared.tree.Comparison.{Comparison};
ghost use Rattle.dcx_syntax.specs.declared.tree.Sign.{Sign};
ghost use Rattle.dcx_syntax.specs.declared.tree.Scaling.{Scaling};
ghost use Rattle.dcx_frac.specs.declared.fraction.Frac.{Frac};
ghost use Rattle.dcx_read.specs.Role.{role_with};
ghost use Rattle.dcx_read.specs.Terminals.{spelled, named_by, terminals};
ghost use Rattle.dcx_read.specs.Moves.{name_s};
ghost use Rattle.dcx_syntax.specs.declared.bracket.Bracket.{Bracket};
ghost use Rattle.dcx_read.specs.Leaves.{FrontText};
ghost use Rattle.dcx_read.specs.Words.{module_named, is_value_word};
ghost use Rattle.dcx_read.specs.Lines.{FrontValue, LacksValue, FrontPlain, LacksPlain, starts_line};
ghost use Rattle.dcx_read.specs.Steps.{Closes, IsBeside, Makes, Front, FrontOf, Lacks, Refuses, Reads, starts_expr, FrontName, FrontPair, LacksPair};

use crate::role::{Mark, Role, mark_in, role_in};
use dcx_frac::Frac;
use dcx_shape::{Name, Place};
use dcx_syntax::{Bracket, Comparison, Module, Named, Scaling, Sign};
use dcx_tokens::Token;
use std::alloc::{AllocError, AllocFailed, Global};

/// Why parsing stopped.
#[derive(Drop)]
pub enum Stop<'a> {
    Memory,
    /// The rest of the tokens, from the first one on that does not fit.
    At(&'a [Token]),
}

impl<'a> From<AllocError> for Stop<'a> {
    ghost from_gives = { λ _ e. e ≡ stops.Memory };

    fn from(_e: AllocError) -> Stop<'a> {
        Stop::Memory
    }
}

impl<'a, T: Drop> From<AllocFailed<T>> for Stop<'a> {
    ghost from_gives = { λ _ e. e ≡ stops.Memory };

    fn from(_e: AllocFailed<T>) -> Stop<'a> {
        Stop::Memory
    }
}

pub fn eat<'a>(tokens: &'a [Token], wanted: Mark) -> Option<(Place, &'a [Token])>
    ensures front { MatchOption result (Lacks (role_with wanted) tokens.now) (λ x. Front (role_with wanted) x.0 tokens.now x.1.now) }
    ensures shorter { IfSome result (λ x. length x.1.now < length tokens.now) }
{
    match tokens {
        [] => None,
        [head, rest @ ..] => match mark_in(role_in(head.kind)) {
            Some(mark) if mark == wanted => Some((head.place, rest)),
            _ => None,
        },
    }
}

pub fn eat_comparison<'a>(tokens: &'a [Token]) -> Option<(Comparison, Place, &'a [Token])>
    ensures front { MatchOption result ((v : Comparison) → Lacks (roles.Compares v) tokens.now) (λ x. Front (roles.Compares x.0) x.1 tokens.now x.2.now) }
    ensures shorter { IfSome result (λ x. length x.2.now < length tokens.now) }
{
    match tokens {
        [] => None,
        [head, rest @ ..] => match role_in(head.kind) {
            Role::Compares(comparison) => Some((comparison, head.place, rest)),
            _ => None,
        },
    }
}

pub fn eat_sign<'a>(tokens: &'a [Token]) -> Option<(Sign, Place, &'a [Token])>
    ensures front { MatchOption result ((v : Sign) → Lacks (roles.Signs v) tokens.now) (λ x. Front (roles.Signs x.0) x.1 tokens.now x.2.now) }
    ensures shorter { IfSome result (λ x. length x.2.now < length tokens.now) }
{
    match tokens {
        [] => None,
        [head, rest @ ..] => match role_in(head.kind) {
            Role::Signs(sign) => Some((sign, head.place, rest)),
            _ => None,
        },
    }
}

pub fn eat_scaling<'a>(tokens: &'a [Token]) -> Option<(Scaling, Place, &'a [Token])>
    ensures front { MatchOption result ((v : Scaling) → Lacks (roles.Scales v) tokens.now) (λ x. Front (roles.Scales x.0) x.1 tokens.now x.2.now) }
    ensures shorter { IfSome result (λ x. length x.2.now < length tokens.now) }
{
    match tokens {
        [] => None,
        [head, rest @ ..] => match role_in(head.kind) {
            Role::Scales(scaling) => Some((scaling, head.place, rest)),
            _ => None,
        },
    }
}

/// Whether the first token may begin an expression.
pub fn starts_expr(tokens: &[Token]) -> bool
    ensures { result ≡ starts_expr tokens.now }
{
    match tokens {
        [] => false,
        [head, ..] => match role_in(head.kind) {
            Role::Name => true,
            Role::Number(_) => true,
            Role::Text => true,
            Role::Truth(_) => true,
            Role::None => true,
            Role::Signs(_) => true,
            Role::Opens(Bracket::Round) => true,
            Role::Opens(Bracket::Square) => true,
            _ => false,
        },
    }
}

pub fn expect<'a>(tokens: &'a [Token], wanted: Mark) -> Result<&'a [Token], Stop<'a>>
    ensures front { IfOk result (λ x. FrontOf (role_with wanted) tokens.now x.now) }
    ensures refused { IfErr result (λ e. Refuses (role_with wanted) tokens.now e) }
    ensures shorter { IfOk result (λ x. length x.now < length tokens.now) }
{
    match eat(tokens, wanted) {
        Some((_, rest)) => Ok(rest),
        None => Err(Stop::At(tokens)),
    }
}

/// The bytes of a token's span.
pub fn slice<'a>(text: &'a [u8], token: &Token) -> &'a [u8]
    ensures { result.now ≡ spelled text.now token.now }
{
    let end = (token.end as usize).min(text.len());
    let start = (token.start as usize).min(end);
    &text[start..end]
}

/// The name that a token is.
pub fn named(alloc: Global, text: &[u8], token: &Token) -> Result<Named, AllocError>
    ensures { IfOk result (λ n. n ≡ named_by text.now token.now) }
{
    let bytes = slice(text, token).to_vec(alloc)?;
    Ok(Named {
        name: Name::from_vec(bytes),
        place: token.place,
    })
}

/// A name token at the front of the tokens, and the tokens behind it.
pub fn eat_name<'a>(tokens: &'a [Token]) -> Option<(&'a Token, &'a [Token])>
    ensures front { MatchOption result (Lacks roles.Name tokens.now) (λ x. FrontName tokens.now x.0.now x.1.now) }
    ensures shorter { IfSome result (λ x. length x.1.now < length tokens.now) }
{
    match tokens {
        [] => None,
        [head, rest @ ..] => match role_in(head.kind) {
            Role::Name => Some((head, rest)),
            _ => None,
        },
    }
}

pub fn eat_number<'a>(tokens: &'a [Token]) -> Option<(Frac, Place, &'a [Token])>
    ensures front { MatchOption result ((v : Frac) → Lacks (roles.Number v) tokens.now) (λ x. Front (roles.Number x.0) x.1 tokens.now x.2.now) }
    ensures shorter { IfSome result (λ x. length x.2.now < length tokens.now) }
{
    match tokens {
        [] => None,
        [head, rest @ ..] => match role_in(head.kind) {
            Role::Number(value) => Some((value, head.place, rest)),
            _ => None,
        },
    }
}

pub fn eat_truth<'a>(tokens: &'a [Token]) -> Option<(bool, Place, &'a [Token])>
    ensures front { MatchOption result ((v : Bool) → Lacks (roles.Truth v) tokens.now) (λ x. Front (roles.Truth x.0) x.1 tokens.now x.2.now) }
    ensures shorter { IfSome result (λ x. length x.2.now < length tokens.now) }
{
    match tokens {
        [] => None,
        [head, rest @ ..] => match role_in(head.kind) {
            Role::Truth(truth) => Some((truth, head.place, rest)),
            _ => None,
        },
    }
}

/// A text token at the front of the tokens, and the tokens behind it.
pub fn eat_text<'a>(tokens: &'a [Token]) -> Option<(&'a Token, &'a [Token])>
    ensures front { MatchOption result (Lacks roles.Text tokens.now) (λ x. FrontText tokens.now x.0.now x.1.now) }
    ensures shorter { IfSome result (λ x. length x.1.now < length tokens.now) }
{
    match tokens {
        [] => None,
        [head, rest @ ..] => match role_in(head.kind) {
            Role::Text => Some((head, rest)),
            _ => None,
        },
    }
}

pub fn eat_none<'a>(tokens: &'a [Token]) -> Option<(Place, &'a [Token])>
    ensures front { MatchOption result (Lacks roles.None tokens.now) (λ x. Front roles.None x.0 tokens.now x.1.now) }
    ensures shorter { IfSome result (λ x. length x.1.now < length tokens.now) }
{
    match tokens {
        [] => None,
        [head, rest @ ..] => match role_in(head.kind) {
            Role::None => Some((head.place, rest)),
            _ => None,
        },
    }
}

/// A name token and a mark at the front of the tokens, the mark's place, and the tokens behind it.
pub fn eat_name_and<'a>(
    tokens: &'a [Token],
    wanted: Mark,
) -> Option<(&'a Token, Place, &'a [Token])>
    ensures front { MatchOption result (LacksPair (role_with wanted) tokens.now) (λ x. FrontPair (role_with wanted) tokens.now x.0.now x.1 x.2.now) }
    ensures shorter { IfSome result (λ x. length x.2.now < length tokens.now) }
{
    let (head, behind) = eat_name(tokens)?;
    let (place, rest) = eat(behind, wanted)?;
    Some((head, place, rest))
}

pub fn name<'a>(
    alloc: Global,
    text: &[u8],
    tokens: &'a [Token],
) -> Result<(Named, &'a [Token]), Stop<'a>>
    ensures read { Reads name_s text.now (λ x. (x.0, x.1.now)) result (terminals text.now tokens.now) }
    ensures shorter { IfOk result (λ x. length x.1.now < length tokens.now) }
{
    match eat_name(tokens) {
        Some((head, rest)) => {
            let named = named(alloc, text, head)?;
            Ok((named, rest))
        }
        None => Err(Stop::At(tokens)),
    }
}

/// The module that a name is, if it is one.
pub fn module_in(bytes: &[u8]) -> Option<Module>
    ensures { result ≡ module_named bytes.now }
{
    if bytes == "cvxpy".as_bytes() {
        return Some(Module::Cvxpy);
    }
    if bytes == "numpy".as_bytes() {
        return Some(Module::Numpy);
    }
    None
}

/// Whether a name is `value`.
fn is_value(bytes: &[u8]) -> bool
    ensures { result ≡ is_value_word bytes.now }
{
    bytes == "value".as_bytes()
}

/// A name token, a dot, the name `value` and `=` at the front of the tokens, the place of `value`, and the tokens behind.
pub fn eat_value<'a>(text: &[u8], tokens: &'a [Token]) -> Option<(&'a Token, Place, &'a [Token])>
    ensures front { MatchOption result (LacksValue text.now tokens.now) (λ x. FrontValue text.now tokens.now x.0.now x.1 x.2.now) }
    ensures shorter { IfSome result (λ x. length x.2.now < length tokens.now) }
{
    let Some((head, _, dotted)) = eat_name_and(tokens, Mark::Dot) else {
        return None;
    };
    let Some((word, _, rest)) = eat_name_and(dotted, Mark::Equal) else {
        return None;
    };
    if !is_value(slice(text, word)) {
        return None;
    }
    Some((head, word.place, rest))
}

/// A token that is no bracket, and the tokens behind it: only these.
pub fn eat_plain<'a>(tokens: &'a [Token]) -> Option<&'a [Token]>
    ensures front { MatchOption result (LacksPlain tokens.now) (λ x. FrontPlain tokens.now x.now) }
    ensures shorter { IfSome result (λ x. length x.now < length tokens.now) }
{
    match tokens {
        [] => None,
        [head, rest @ ..] => match role_in(head.kind) {
            Role::Opens(_) => None,
            Role::Closes(_) => None,
            _ => Some(rest),
        },
    }
}

/// A bracket of any kind that opens.
pub fn eat_opener<'a>(tokens: &'a [Token]) -> Option<(Bracket, Place, &'a [Token])>
    ensures front { MatchOption result ((b : Bracket) → Lacks (roles.Opens b) tokens.now) (λ x. Front (roles.Opens x.0) x.1 tokens.now x.2.now) }
    ensures shorter { IfSome result (λ x. length x.2.now < length tokens.now) }
{
    match tokens {
        [] => None,
        [head, rest @ ..] => match role_in(head.kind) {
            Role::Opens(bracket) => Some((bracket, head.place, rest)),
            _ => None,
        },
    }
}

/// Whether the first token may begin a line.
pub fn starts_line(tokens: &[Token]) -> bool
    ensures { result ≡ starts_line tokens.now }
{
    match tokens {
        [] => false,
        [head, ..] => match role_in(head.kind) {
            Role::Import => true,
            Role::Print => true,
            Role::For => true,
            _ => starts_expr(tokens),
        },
    }
}

/// What was read, if this mark stands behind it, and the tokens behind the mark.
pub fn closed<'a, T: Drop>(
    read: Result<(T, &'a [Token]), Stop<'a>>,
    wanted: Mark,
) -> Result<(T, &'a [Token]), Stop<'a>>
    ensures { Closes (role_with wanted) (λ x. (x.0, x.1.now)) result read.entry }
{
    let (found, closing) = read?;
    let rest = expect(closing, wanted)?;
    Ok((found, rest))
}

/// This beside what was read.
pub fn beside<'a, T: Drop, U>(
    front: T,
    read: Result<(U, &'a [Token]), Stop<'a>>,
) -> Result<((T, U), &'a [Token]), Stop<'a>>
    ensures { IsBeside (λ x. ((x.0.0, x.0.1), x.1.now)) (λ x. (x.0, x.1.now)) front result read.entry }
{
    match read {
        Ok((found, rest)) => Ok(((front, found), rest)),
        Err(stop) => Err(stop),
    }
}

/// What was read so far, and the item behind it.
pub fn grown<'a, T: Drop, U: Drop>(
    so_far: ((T, Vec<U>), &'a [Token]),
    item: Result<(U, &'a [Token]), Stop<'a>>,
) -> Result<((T, Vec<U>), &'a [Token]), Stop<'a>>
    ensures { Makes {A = T × List U} (λ x. ((x.0.0, x.0.1.items), x.1.now)) (λ y. ((so_far.entry.0.0, so_far.entry.0.1.items ++ y.0 ∷ []), y.1.now)) result item.entry }
{
    let ((first, mut others), _) = so_far;
    let (next, rest) = item?;
    others.push(next)?;
    Ok(((first, others), rest))
}
