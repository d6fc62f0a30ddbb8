//! Which indentations stand, and which signs are brackets.
ghost use Rattle.std.specs.Prelude.{◌≡◌, ◌≤◌, ◌==◌, length, nat_lt};
ghost use Rattle.std.specs.List.{list_all, list_any};
ghost use Rattle.dcx_tokens.specs.Layout.{is_deeper, is_standing, kept, opens, closes};

use crate::token::Symbol;

fn all_below(indents: &[usize], spaces: usize) -> bool
    ensures { result ≡ list_all (λ i. nat_lt i spaces) indents.now }
{
    indents.iter().all(|i| *i < spaces)
}

fn any_at(indents: &[usize], spaces: usize) -> bool
    ensures { result ≡ list_any (λ i. i == spaces) indents.now }
{
    indents.iter().any(|i| *i == spaces)
}

/// Whether so many spaces are a deeper indentation than each that stands.
pub(crate) fn is_deeper(indents: &[usize], spaces: usize) -> bool
    ensures { result ≡ is_deeper indents.now spaces }
{
    0 < spaces && all_below(indents, spaces)
}

/// Whether so many spaces are an indentation that stands.
pub(crate) fn is_standing(indents: &[usize], spaces: usize) -> bool
    ensures { result ≡ is_standing indents.now spaces }
{
    spaces == 0 || any_at(indents, spaces)
}

/// How many indentations still stand at so many spaces.
pub(crate) fn kept_count(indents: &[usize], spaces: usize) -> usize
    ensures value { result ≡ length (kept indents.now spaces) }
    ensures within { result ≤ length indents.now }
{
    indents.iter().take_while(|i| **i <= spaces).count()
}

pub(crate) fn opens_bracket(symbol: Symbol) -> bool
    ensures { result ≡ opens symbol }
{
    match symbol {
        Symbol::OpenRound | Symbol::OpenSquare | Symbol::OpenCurly => true,
        _ => false,
    }
}

pub(crate) fn closes_bracket(symbol: Symbol) -> bool
    ensures { result ≡ closes symbol }
{
    match symbol {
        Symbol::CloseRound | Symbol::CloseSquare | Symbol::CloseCurly => true,
        _ => false,
    }
}
