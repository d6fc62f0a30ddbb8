//! What stands at the front of a text: a line end, blanks, a comment or a token.
ghost use Rattle.std.specs.Prelude.{◌≡◌, ◌≤◌, ◌<◌, ◌+◌, length, IfSome};
ghost use Rattle.std.specs.Char.{is_ascii_digit};
ghost use Rattle.unicode_ident.specs.Ident.{is_xid_continue};
ghost use Rattle.dcx_tokens.specs.Front.{
  run_of,
  is_blank,
  is_quote,
  begins_name,
  ends_line,
  begins_number,
  short_sign,
  long_sign,
  sign_at,
  sign_len,
  line_end_len,
  front_at,
  up_to_line_end,
  is_not_line_feed,
  is_before_line_feed,
  tab_among,
  sign_front,
  HasEnough,
};

use crate::token::Symbol;

/// What stands at the front of a text.
#[derive(Clone, Copy)]
pub(crate) enum Front {
    LineEnd,
    Blank,
    Comment,
    Name,
    Number,
    Text,
    Sign(Symbol),
    /// A character that begins no token.
    Other,
}

/// How many characters of the front go on a name.
pub(crate) fn name_run(chars: &[char]) -> usize
    ensures value { result ≡ run_of is_xid_continue chars.now }
    ensures within { result ≤ length chars.now }
{
    chars
        .iter()
        .take_while(|c| unicode_ident::is_xid_continue(**c))
        .count()
}

/// How many digits stand at the front.
pub(crate) fn digit_run(chars: &[char]) -> usize
    ensures value { result ≡ run_of is_ascii_digit chars.now }
    ensures within { result ≤ length chars.now }
{
    chars.iter().take_while(|c| c.is_ascii_digit()).count()
}

/// How many blanks stand at the front.
pub(crate) fn blank_run(chars: &[char]) -> usize
    ensures value { result ≡ run_of is_blank chars.now }
    ensures within { result ≤ length chars.now }
{
    chars
        .iter()
        .take_while(|c| **c == ' ' || **c == '\t')
        .count()
}

/// Whether a tab is among the characters.
pub(crate) fn has_tab(chars: &[char]) -> bool
    ensures { result ≡ tab_among chars.now }
{
    chars.iter().any(|c| *c == '\t')
}

/// How many characters come before the next LF.
fn line_run(chars: &[char]) -> usize
    ensures value { result ≡ run_of is_not_line_feed chars.now }
    ensures within { result ≤ length chars.now }
{
    chars.iter().take_while(|c| **c != '\n').count()
}

/// Whether a CR is the last of the first `count` characters, and a LF comes behind it.
fn ends_before_line_feed(chars: &[char], count: usize) -> bool
    requires { count ≤ length chars.now }
    ensures { result ≡ is_before_line_feed chars.now count }
{
    0 < count && count < chars.len() && chars[count - 1] == '\r'
}

/// How many characters come before the end of the line, of which a CR before the LF is a part.
pub(crate) fn comment_run(chars: &[char]) -> usize
    ensures value { result ≡ up_to_line_end chars.now }
    ensures within { result ≤ length chars.now }
{
    let count = line_run(chars);
    if ends_before_line_feed(chars, count) {
        count - 1
    } else {
        count
    }
}

fn starts_name(c: char) -> bool
    ensures { result ≡ begins_name c }
{
    unicode_ident::is_xid_start(c) || c == '_'
}

fn starts_number(c: char, after: &[char]) -> bool
    ensures { result ≡ begins_number c after.now }
{
    match after {
        [] => c.is_ascii_digit(),
        [d, ..] => c.is_ascii_digit() || (c == '.' && d.is_ascii_digit()),
    }
}

fn starts_line_end(c: char, after: &[char]) -> bool
    ensures { result ≡ ends_line c after.now }
{
    match after {
        [] => c == '\n',
        [d, ..] => c == '\n' || (c == '\r' && *d == '\n'),
    }
}

/// How many characters a line end has that begins so.
pub(crate) fn line_end_count(c: char) -> usize
    ensures value { result ≡ line_end_len c }
    ensures some { 0 < result }
{
    if c == '\r' { 2 } else { 1 }
}

/// The sign of these two characters.
fn long_sign(c: char, d: char) -> Option<Symbol>
    ensures value { result ≡ long_sign c d }
    ensures len { IfSome result (λ s. sign_len s ≤ 2) }
{
    if c == '*' && d == '*' {
        Some(Symbol::StarStar)
    } else if c == '/' && d == '/' {
        Some(Symbol::SlashSlash)
    } else if d != '=' {
        None
    } else if c == '<' {
        Some(Symbol::LessEqual)
    } else if c == '>' {
        Some(Symbol::GreaterEqual)
    } else if c == '=' {
        Some(Symbol::EqualEqual)
    } else if c == '!' {
        Some(Symbol::NotEqual)
    } else if c == '+' {
        Some(Symbol::PlusEqual)
    } else if c == '-' {
        Some(Symbol::MinusEqual)
    } else if c == '*' {
        Some(Symbol::StarEqual)
    } else if c == '/' {
        Some(Symbol::SlashEqual)
    } else {
        None
    }
}

/// The sign of this character alone.
fn short_sign(c: char) -> Option<Symbol>
    ensures value { result ≡ short_sign c }
    ensures len { IfSome result (λ s. sign_len s ≤ 1) }
{
    match c {
        '+' => Some(Symbol::Plus),
        '-' => Some(Symbol::Minus),
        '*' => Some(Symbol::Star),
        '/' => Some(Symbol::Slash),
        '@' => Some(Symbol::At),
        '%' => Some(Symbol::Percent),
        '<' => Some(Symbol::Less),
        '>' => Some(Symbol::Greater),
        '=' => Some(Symbol::Equal),
        '(' => Some(Symbol::OpenRound),
        ')' => Some(Symbol::CloseRound),
        '[' => Some(Symbol::OpenSquare),
        ']' => Some(Symbol::CloseSquare),
        '{' => Some(Symbol::OpenCurly),
        '}' => Some(Symbol::CloseCurly),
        ',' => Some(Symbol::Comma),
        ':' => Some(Symbol::Colon),
        '.' => Some(Symbol::Dot),
        ';' => Some(Symbol::Semicolon),
        _ => None,
    }
}

/// The longest sign that fits.
#[tactic(auto, unfolding(crate::specs::Front::sign_at))]
fn sign(c: char, after: &[char]) -> Option<Symbol>
    ensures value { result ≡ sign_at c after.now }
    ensures within { IfSome result (λ s. sign_len s ≤ 1 + length after.now) }
{
    match after {
        [] => short_sign(c),
        [d, ..] => long_sign(c, *d).or(short_sign(c)),
    }
}

/// How many characters a sign has.
pub(crate) fn sign_count(symbol: Symbol) -> usize
    ensures value { result ≡ sign_len symbol }
    ensures some { 0 < result }
{
    match symbol {
        Symbol::StarStar
        | Symbol::SlashSlash
        | Symbol::LessEqual
        | Symbol::GreaterEqual
        | Symbol::EqualEqual
        | Symbol::NotEqual
        | Symbol::PlusEqual
        | Symbol::MinusEqual
        | Symbol::StarEqual
        | Symbol::SlashEqual => 2,
        _ => 1,
    }
}

/// The sign that stands here, or that no token begins here.
fn sign_or_other(c: char, after: &[char]) -> Front
    ensures value { result ≡ sign_front (sign_at c after.now) }
    ensures enough { HasEnough result c after.now }
{
    match sign(c, after) {
        Some(symbol) => Front::Sign(symbol),
        None => Front::Other,
    }
}

/// What stands at the front of a text that begins with `c`.
#[tactic(auto, unfolding(crate::specs::Front::front_at))]
pub(crate) fn front_of(c: char, after: &[char]) -> Front
    ensures value { result ≡ front_at c after.now }
    ensures enough { HasEnough result c after.now }
{
    if starts_line_end(c, after) {
        Front::LineEnd
    } else if c == ' ' || c == '\t' {
        Front::Blank
    } else if c == '#' {
        Front::Comment
    } else if starts_name(c) {
        Front::Name
    } else if starts_number(c, after) {
        Front::Number
    } else if c == '\'' || c == '"' {
        Front::Text
    } else {
        sign_or_other(c, after)
    }
}
