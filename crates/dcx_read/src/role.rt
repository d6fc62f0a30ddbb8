//! What the grammar sees in a token.
ghost use Rattle.std.specs.Prelude.{◌≡◌};
ghost use Rattle.dcx_read.specs.Role.{role_of, keyword_role_of, symbol_role_of, mark_of};

use dcx_frac::Frac;
use dcx_syntax::{Bracket, Comparison, Scaling, Sign};
use dcx_tokens::{Keyword, Symbol, TokenKind};

/// What the grammar tells apart in tokens.
#[derive(Clone, Copy)]
pub enum Role {
    Opens(Bracket),
    Closes(Bracket),
    Name,
    Number(Frac),
    Text,
    Truth(bool),
    None,
    Compares(Comparison),
    Signs(Sign),
    Scales(Scaling),
    Power,
    PlusEqual,
    Import,
    For,
    Print,
    As,
    In,
    Dot,
    Comma,
    Colon,
    Equal,
    Newline,
    Indent,
    Dedent,
    /// A token that no rule names.
    Other,
}

fn keyword_role(keyword: Keyword) -> Role
    ensures { result ≡ keyword_role_of keyword }
{
    match keyword {
        Keyword::Import => Role::Import,
        Keyword::As => Role::As,
        Keyword::For => Role::For,
        Keyword::In => Role::In,
        Keyword::True => Role::Truth(true),
        Keyword::False => Role::Truth(false),
        Keyword::None => Role::None,
        Keyword::Print => Role::Print,
        Keyword::Other => Role::Other,
    }
}

fn symbol_role(symbol: Symbol) -> Role
    ensures { result ≡ symbol_role_of symbol }
{
    match symbol {
        Symbol::Plus => Role::Signs(Sign::Plus),
        Symbol::Minus => Role::Signs(Sign::Minus),
        Symbol::Star => Role::Scales(Scaling::Times),
        Symbol::Slash => Role::Scales(Scaling::Over),
        Symbol::At => Role::Scales(Scaling::Matmul),
        Symbol::StarStar => Role::Power,
        Symbol::LessEqual => Role::Compares(Comparison::AtMost),
        Symbol::GreaterEqual => Role::Compares(Comparison::AtLeast),
        Symbol::EqualEqual => Role::Compares(Comparison::Equal),
        Symbol::Less => Role::Compares(Comparison::Less),
        Symbol::Greater => Role::Compares(Comparison::Greater),
        Symbol::NotEqual => Role::Compares(Comparison::NotEqual),
        Symbol::Equal => Role::Equal,
        Symbol::PlusEqual => Role::PlusEqual,
        Symbol::OpenRound => Role::Opens(Bracket::Round),
        Symbol::CloseRound => Role::Closes(Bracket::Round),
        Symbol::OpenSquare => Role::Opens(Bracket::Square),
        Symbol::CloseSquare => Role::Closes(Bracket::Square),
        Symbol::OpenCurly => Role::Opens(Bracket::Curly),
        Symbol::CloseCurly => Role::Closes(Bracket::Curly),
        Symbol::Comma => Role::Comma,
        Symbol::Colon => Role::Colon,
        Symbol::Dot => Role::Dot,
        _ => Role::Other,
    }
}

/// What the grammar sees in a token of this kind.
pub fn role_in(kind: TokenKind) -> Role
    ensures { result ≡ role_of kind }
{
    match kind {
        TokenKind::Name => Role::Name,
        TokenKind::Keyword(keyword) => keyword_role(keyword),
        TokenKind::Number(number) => Role::Number(number),
        TokenKind::Text => Role::Text,
        TokenKind::Sign(symbol) => symbol_role(symbol),
        TokenKind::Newline => Role::Newline,
        TokenKind::Indent => Role::Indent,
        TokenKind::Dedent => Role::Dedent,
    }
}

/// A role that says all of its token that the grammar knows, but for its place.
#[derive(Clone, Copy, PartialEq, Eq)]
pub enum Mark {
    Opens(Bracket),
    Closes(Bracket),
    Power,
    PlusEqual,
    Import,
    For,
    Print,
    As,
    In,
    Dot,
    Comma,
    Colon,
    Equal,
    Newline,
    Indent,
    Dedent,
}

/// The role as a mark, if it is one.
pub fn mark_in(role: Role) -> Option<Mark>
    ensures { result ≡ mark_of role }
{
    match role {
        Role::Opens(bracket) => Some(Mark::Opens(bracket)),
        Role::Closes(bracket) => Some(Mark::Closes(bracket)),
        Role::Power => Some(Mark::Power),
        Role::PlusEqual => Some(Mark::PlusEqual),
        Role::Import => Some(Mark::Import),
        Role::For => Some(Mark::For),
        Role::Print => Some(Mark::Print),
        Role::As => Some(Mark::As),
        Role::In => Some(Mark::In),
        Role::Dot => Some(Mark::Dot),
        Role::Comma => Some(Mark::Comma),
        Role::Colon => Some(Mark::Colon),
        Role::Equal => Some(Mark::Equal),
        Role::Newline => Some(Mark::Newline),
        Role::Indent => Some(Mark::Indent),
        Role::Dedent => Some(Mark::Dedent),
        _ => None,
    }
}
