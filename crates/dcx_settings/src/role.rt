//! What a token is to the settings.
ghost use Rattle.std.specs.Prelude.{◌≡◌, ◌<◌, ◌∷◌, [], length, MatchOption, IfSome, IfOk, IfErr};
ghost use Rattle.std.specs.List.{slice_range, list_all};
ghost use Rattle.std.specs.Char.{is_ascii_digit};
ghost use Rattle.dcx_settings.specs.Terminal.{terminal_of, sign_terminal, number_terminal};
ghost use Rattle.dcx_settings.specs.Terminal.{terminals, name, digits, decimal};
ghost use Rattle.dcx_settings.specs.Steps.{terminal, mark_terminal, Lacks, LacksName, LacksDigits, LacksDecimal, IsWhole, HasWhole, IsStopAt};

use crate::stop::Stop;
use dcx_frac::Frac;
use dcx_tokens::{Symbol, Token, TokenKind};

/// The signs of the settings, and the end of a line.
#[derive(Clone, Copy, PartialEq, Eq)]
pub enum Mark {
    Minus,
    Slash,
    Equal,
    Comma,
    Semicolon,
    OpenSquare,
    CloseSquare,
    OpenCurly,
    CloseCurly,
    Newline,
}

/// What a token is to the settings.
#[derive(Clone, Copy)]
pub enum Role {
    Name,
    /// A whole number of at least 0, of digits alone.
    Digits(Frac),
    /// Another number.
    Decimal(Frac),
    Sign(Mark),
    /// No rule takes it.
    Other,
}

/// The bytes of a token; none beyond the end of the text.
fn bytes_of<'a>(text: &'a [u8], token: &Token) -> &'a [u8]
    ensures { result.now ≡ slice_range text.now token.now.start token.now.end }
{
    let from = text.len().min(token.start as usize);
    let to = text.len().min(token.end as usize).max(from);
    &text[from..to]
}

fn sign_role(symbol: Symbol) -> Role
    ensures is { terminal result [] ≡ sign_terminal symbol }
    ensures whole { HasWhole result }
{
    match symbol {
        Symbol::Minus => Role::Sign(Mark::Minus),
        Symbol::Slash => Role::Sign(Mark::Slash),
        Symbol::Equal => Role::Sign(Mark::Equal),
        Symbol::Comma => Role::Sign(Mark::Comma),
        Symbol::Semicolon => Role::Sign(Mark::Semicolon),
        Symbol::OpenSquare => Role::Sign(Mark::OpenSquare),
        Symbol::CloseSquare => Role::Sign(Mark::CloseSquare),
        Symbol::OpenCurly => Role::Sign(Mark::OpenCurly),
        Symbol::CloseCurly => Role::Sign(Mark::CloseCurly),
        _ => Role::Other,
    }
}

/// Whether all bytes are digits.
fn are_digits(bytes: &[u8]) -> bool
    ensures { result ≡ list_all is_ascii_digit bytes.now }
{
    bytes.iter().all(|b| b.is_ascii_digit())
}

/// A number, of digits alone or not.
fn number_role(number: Frac, bytes: &[u8]) -> Role
    ensures is { terminal result bytes.now ≡ number_terminal number bytes.now }
    ensures whole { HasWhole result }
{
    if number.den() == 1 && number.num() >= 0 && are_digits(bytes) {
        Role::Digits(number)
    } else {
        Role::Decimal(number)
    }
}

/// What the token is.
fn role_of(text: &[u8], token: &Token) -> Role
    ensures is { terminal result (slice_range text.now token.now.start token.now.end) ≡ terminal_of text.now token.now }
    ensures whole { HasWhole result }
{
    match token.kind {
        TokenKind::Name => Role::Name,
        TokenKind::Number(number) => number_role(number, bytes_of(text, token)),
        TokenKind::Sign(symbol) => sign_role(symbol),
        TokenKind::Newline => Role::Sign(Mark::Newline),
        _ => Role::Other,
    }
}

/// The tokens behind the mark, where it is first.
pub fn eat<'a>(text: &[u8], tokens: &'a [Token], wanted: Mark) -> Option<&'a [Token]>
    ensures first { MatchOption result (Lacks (mark_terminal wanted) (terminals text.now tokens.now)) (λ rest. terminals text.now tokens.now ≡ mark_terminal wanted ∷ terminals text.now rest.now) }
    ensures shorter { IfSome result (λ rest. length rest.now < length tokens.now) }
{
    match tokens {
        [] => None,
        [head, rest @ ..] => match role_of(text, head) {
            Role::Sign(mark) => { if mark == wanted { Some(rest) } else { None } }
            _ => None,
        },
    }
}

/// The tokens behind the mark that has to be first.
pub fn expect<'a>(text: &[u8], tokens: &'a [Token], wanted: Mark) -> Result<&'a [Token], Stop<'a>>
    ensures ok { IfOk result (λ rest. terminals text.now tokens.now ≡ mark_terminal wanted ∷ terminals text.now rest.now) }
    ensures stop { IfErr result (λ e. IsStopAt tokens.now e × Lacks (mark_terminal wanted) (terminals text.now tokens.now)) }
    ensures shorter { IfOk result (λ rest. length rest.now < length tokens.now) }
{
    match eat(text, tokens, wanted) {
        Some(rest) => Ok(rest),
        None => Err(Stop::At(tokens)),
    }
}

/// The whole number of digits alone that is first, and the tokens behind it.
pub fn eat_digits<'a>(text: &[u8], tokens: &'a [Token]) -> Option<(Frac, &'a [Token])>
    ensures first { MatchOption result (LacksDigits (terminals text.now tokens.now)) (λ x. terminals text.now tokens.now ≡ digits x.0.num ∷ terminals text.now x.1.now) }
    ensures whole { IfSome result (λ x. IsWhole x.0) }
    ensures shorter { IfSome result (λ x. length x.1.now < length tokens.now) }
{
    match tokens {
        [] => None,
        [head, rest @ ..] => match role_of(text, head) {
            Role::Digits(number) => Some((number, rest)),
            _ => None,
        },
    }
}

/// The other number that is first, and the tokens behind it.
pub fn eat_decimal<'a>(text: &[u8], tokens: &'a [Token]) -> Option<(Frac, &'a [Token])>
    ensures first { MatchOption result (LacksDecimal (terminals text.now tokens.now)) (λ x. terminals text.now tokens.now ≡ decimal x.0 ∷ terminals text.now x.1.now) }
    ensures shorter { IfSome result (λ x. length x.1.now < length tokens.now) }
{
    match tokens {
        [] => None,
        [head, rest @ ..] => match role_of(text, head) {
            Role::Decimal(number) => Some((number, rest)),
            _ => None,
        },
    }
}

/// The name that is first, and the tokens behind it.
pub fn eat_name<'a, 'b>(text: &'b [u8], tokens: &'a [Token]) -> Option<(&'b [u8], &'a [Token])>
    ensures first { MatchOption result (LacksName (terminals text.now tokens.now)) (λ x. terminals text.now tokens.now ≡ name x.0.now ∷ terminals text.now x.1.now) }
    ensures shorter { IfSome result (λ x. length x.1.now < length tokens.now) }
{
    match tokens {
        [] => None,
        [head, rest @ ..] => match role_of(text, head) {
            Role::Name => Some((bytes_of(text, head), rest)),
            _ => None,
        },
    }
}
