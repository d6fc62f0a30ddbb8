//! The words that no name may be.
ghost use Rattle.std.specs.Prelude.{◌≡◌, ◌≤◌, ◌<◌, ◌+◌, length};
ghost use Rattle.std.specs.Cmp.Lexicographic.{pointwise};
ghost use Rattle.std.specs.Prelude.{nat_eq, codes};
ghost use Rattle.std.specs.List.{list_any};
ghost use Rattle.dcx_tokens.specs.Word.{keyword_of, is_other_word};

use crate::token::{Keyword, TokenKind};

/// Whether these are the characters of a text of ASCII.
fn is_word(chars: &[char], text: &str) -> bool
    ensures { result ≡ pointwise nat_eq chars.now text.now }
{
    let mut rest = chars;
    for b in text.as_bytes() {
        match rest {
            [] => return false,
            [c, after @ ..] => {
                if *c != char::from(*b) {
                    return false;
                }
                rest = after;
            }
        }
    }
    rest.is_empty()
}

/// The keywords of Python that no rule of the grammar takes.
const OTHERS: [&str; 28] = [
    "and", "assert", "async", "await", "break", "class", "continue", "def", "del", "elif", "else",
    "except", "finally", "from", "global", "if", "is", "lambda", "nonlocal", "not", "or", "pass",
    "raise", "return", "try", "while", "with", "yield",
];

/// Whether these are the characters of one of the texts of ASCII.
fn is_any_word(chars: &[char], texts: &[&str]) -> bool
    ensures { result ≡ list_any (λ text. pointwise nat_eq chars.now text.now) texts.now }
{
    for text in texts {
        if is_word(chars, text) {
            return true;
        }
    }
    false
}

/// Whether this is a keyword of Python that no rule of the grammar takes.
fn is_other(word: &[char]) -> bool
    ensures { result ≡ is_other_word word.now }
{
    let others: [&str; 28] = OTHERS;
    is_any_word(word, others.as_slice())
}

/// The keyword that a word is.
#[tactic(auto, unfolding(crate::specs::Word::keyword_of))]
pub(crate) fn keyword(word: &[char]) -> Option<Keyword>
    ensures { result ≡ keyword_of word.now }
{
    if is_word(word, "import") {
        Some(Keyword::Import)
    } else if is_word(word, "as") {
        Some(Keyword::As)
    } else if is_word(word, "for") {
        Some(Keyword::For)
    } else if is_word(word, "in") {
        Some(Keyword::In)
    } else if is_word(word, "True") {
        Some(Keyword::True)
    } else if is_word(word, "False") {
        Some(Keyword::False)
    } else if is_word(word, "None") {
        Some(Keyword::None)
    } else if is_word(word, "print") {
        Some(Keyword::Print)
    } else if is_other(word) {
        Some(Keyword::Other)
    } else {
        None
    }
}
