//! Reading a number.
ghost use Rattle.std.specs.Prelude.{◌≡◌, ◌≢◌, ◌<◌, ◌≤◌, length, pos, IfNone, IfSome, IfOk, IfErr};
ghost use Rattle.dcx_math.specs.Rational.{whole, ◌/ℚ◌};
ghost use Rattle.dcx_frac.specs.Frac.{value};
ghost use Rattle.dcx_settings.specs.Terminal.{terminals};
ghost use Rattle.dcx_settings.specs.Meaning.{signed_value};
ghost use Rattle.dcx_settings.specs.Steps.{IsWhole, IsNumberRead, StopsAt, number_from, size_from, digits_from, divisor_from};

use crate::role::{Mark, eat, eat_decimal, eat_digits};
use crate::stop::Stop;
use dcx_frac::Frac;
use dcx_tokens::Token;

/// The number with its sign.
fn signed(is_negative: bool, number: Frac) -> Frac
    ensures { value result ≡ signed_value is_negative (value number) }
{
    if is_negative { number.neg() } else { number }
}

/// The quotient of whole numbers; `None` where the lower one is 0.
fn quotient(front: Frac, back: Frac) -> Option<Frac>
    ensures none { IfNone result (back.num ≡ pos 0) }
    ensures some { IfSome result (λ f. (back.num ≢ pos 0) × (value f ≡ whole front.num /ℚ whole back.num)) }
{
    Frac::of(front.num(), back.num())
}

/// Digits behind a slash, and the tokens behind them: the number `front / digits`.
fn divisor<'a>(
    text: &[u8],
    tokens: &'a [Token],
    is_negative: bool,
    front: Frac,
) -> Result<(Frac, &'a [Token]), Stop<'a>>
    requires { IsWhole front }
    ensures ok { IfOk result (λ x. IsNumberRead (divisor_from is_negative front.num) (terminals text.now tokens.now) x.0 (terminals text.now x.1.now)) }
    ensures stop { IfErr result (StopsAt (divisor_from is_negative front.num) text.now (terminals text.now tokens.now)) }
    ensures shorter { IfOk result (λ x. length x.1.now < length tokens.now) }
{
    match eat_digits(text, tokens) {
        None => Err(Stop::At(tokens)),
        Some((back, rest)) => match quotient(front, back) {
            None => Err(Stop::At(tokens)),
            Some(number) => Ok((signed(is_negative, number), rest)),
        },
    }
}

/// What may follow digits, and the tokens behind it.
fn behind_digits<'a>(
    text: &[u8],
    tokens: &'a [Token],
    is_negative: bool,
    front: Frac,
) -> Result<(Frac, &'a [Token]), Stop<'a>>
    requires { IsWhole front }
    ensures ok { IfOk result (λ x. IsNumberRead (digits_from is_negative front.num) (terminals text.now tokens.now) x.0 (terminals text.now x.1.now)) }
    ensures stop { IfErr result (StopsAt (digits_from is_negative front.num) text.now (terminals text.now tokens.now)) }
    ensures shorter { IfOk result (λ x. length x.1.now ≤ length tokens.now) }
{
    match eat(text, tokens, Mark::Slash) {
        Some(rest) => divisor(text, rest, is_negative, front),
        None => Ok((signed(is_negative, front), tokens)),
    }
}

/// A number behind its sign, and the tokens behind it.
fn unsigned<'a>(
    text: &[u8],
    tokens: &'a [Token],
    is_negative: bool,
) -> Result<(Frac, &'a [Token]), Stop<'a>>
    ensures ok { IfOk result (λ x. IsNumberRead (size_from is_negative) (terminals text.now tokens.now) x.0 (terminals text.now x.1.now)) }
    ensures stop { IfErr result (StopsAt (size_from is_negative) text.now (terminals text.now tokens.now)) }
    ensures shorter { IfOk result (λ x. length x.1.now < length tokens.now) }
{
    if let Some((front, rest)) = eat_digits(text, tokens) {
        return behind_digits(text, rest, is_negative, front);
    }
    match eat_decimal(text, tokens) {
        Some((number, rest)) => Ok((signed(is_negative, number), rest)),
        None => Err(Stop::At(tokens)),
    }
}

/// The number at the front of the tokens, and the tokens behind it.
pub fn number<'a>(text: &[u8], tokens: &'a [Token]) -> Result<(Frac, &'a [Token]), Stop<'a>>
    ensures ok { IfOk result (λ x. IsNumberRead number_from (terminals text.now tokens.now) x.0 (terminals text.now x.1.now)) }
    ensures stop { IfErr result (StopsAt number_from text.now (terminals text.now tokens.now)) }
    ensures shorter { IfOk result (λ x. length x.1.now < length tokens.now) }
{
    match eat(text, tokens, Mark::Minus) {
        Some(rest) => unsigned(text, rest, true),
        None => unsigned(text, tokens, false),
    }
}
