//! One token: what stands at the front of a text, the longest that fits.
ghost use Rattle.std.specs.Prelude.{◌≡◌, ◌≤◌, ◌<◌, ◌+◌, ◌∷◌, ℕ, List, length, IfOk, IsTrue};
ghost use Rattle.dcx_tokens.specs.Front.{HasEnough, begins_number};
ghost use Rattle.dcx_tokens.specs.Lexeme.{token_at, word_kind, word_token_of, number_token_of, text_token_of};

use crate::fault::ReadFault;
use crate::front::{Front, name_run, sign_count};
use crate::number::number;
use crate::quoted::quoted_run;
use crate::token::TokenKind;
use crate::word::keyword;
use dcx_shape::Place;

/// What a word is.
fn kind_of_word(word: &[char]) -> TokenKind
    ensures { result ≡ word_kind word.now }
{
    match keyword(word) {
        Some(keyword) => TokenKind::Keyword(keyword),
        None => TokenKind::Name,
    }
}

/// The name or keyword in front, and how many characters it has.
fn word_token(chars: &[char], after: &[char]) -> (TokenKind, usize)
    requires { length chars.now ≡ 1 + length after.now }
    ensures value { result ≡ word_token_of chars.now after.now }
    ensures within { result.1 ≤ length chars.now }
    ensures some { 0 < result.1 }
{
    let count = 1 + name_run(after);
    (kind_of_word(&chars[..count]), count)
}

/// The number in front, and how many characters it has.
fn number_token(place: Place, chars: &[char]) -> Result<(TokenKind, usize), ReadFault>
    ensures value { result ≡ number_token_of place chars.now }
    ensures within { IfOk result (λ t. t.1 ≤ length chars.now) }
    ensures some { (c : ℕ) (cs : List ℕ) → chars.now ≡ c ∷ cs → IsTrue (begins_number c cs) → IfOk result (λ t. 0 < t.1) }
{
    match number(chars) {
        Some((frac, count)) => Ok((TokenKind::Number(frac), count)),
        None => Err(ReadFault::BadNumber(place)),
    }
}

/// The text in front, and how many characters it has.
fn text_token(place: Place, quote: char, after: &[char]) -> Result<(TokenKind, usize), ReadFault>
    ensures value { result ≡ text_token_of place quote after.now }
    ensures within { IfOk result (λ t. t.1 ≤ 1 + length after.now) }
    ensures some { IfOk result (λ t. 0 < t.1) }
{
    match quoted_run(quote, after) {
        Some(count) => Ok((TokenKind::Text, 1 + count)),
        None => Err(ReadFault::Unclosed(place)),
    }
}

/// The token in front, and how many characters it has.
#[tactic(auto, unfolding(crate::specs::Lexeme::token_at))]
pub(crate) fn token(
    place: Place,
    front: Front,
    c: char,
    after: &[char],
    chars: &[char],
) -> Result<(TokenKind, usize), ReadFault>
    requires whole { chars.now ≡ c ∷ after.now }
    requires enough { HasEnough front c after.now }
    ensures value { result ≡ token_at place front c after.now }
    ensures within { IfOk result (λ t. t.1 ≤ length chars.now) }
    ensures some { IfOk result (λ t. 0 < t.1) }
{
    match front {
        Front::Name => Ok(word_token(chars, after)),
        Front::Number => number_token(place, chars),
        Front::Text => text_token(place, c, after),
        Front::Sign(symbol) => Ok((TokenKind::Sign(symbol), sign_count(symbol))),
        Front::LineEnd | Front::Blank | Front::Comment | Front::Other => Err(ReadFault::BadChar(
            place,
        )),
    }
}
