//! Tokens of texts.
use crate::lines::{CaseFault, Number, put_between};
use crate::tokens::faults::{put_fault, put_place};
use crate::tokens::spelling::bytes_of;
use dcx_tokens::{Lexed, ReadFault, Token, TokenKind, Tokens, end_place, lexed, read_text, tokens};
use std::alloc::{AllocError, Global};

/// `bytes | BYTES` for whether bytes are a text; `fault | TEXT`, `first | TEXT` for the first token, `layout | TEXT` for how many line
/// ends, indents and dedents there are, `tokens | TEXT`, `kept | TEXT` for how many tokens stand before a fault, and `end | TEXT`
/// for the place of the end.
pub(crate) fn put_of_text(
    alloc: Global,
    verb: &str,
    rest: &[&str],
    out: &mut String,
) -> Result<(), CaseFault> {
    match *rest {
        [written] => {
            let bytes = bytes_of(alloc, written)?;
            told(alloc, verb, &bytes, out)
        }
        _ => Err(CaseFault::Unreadable),
    }
}

fn told(alloc: Global, verb: &str, bytes: &[u8], out: &mut String) -> Result<(), CaseFault> {
    if verb == "bytes" {
        return match read_text(bytes) {
            Ok(_) => Ok(out.push_str("text")?),
            Err(fault) => put_fault(out, fault),
        };
    }
    match str::from_utf8(bytes) {
        Ok(text) => text_told(alloc, verb, text, out),
        Err(_) => Err(CaseFault::Unreadable),
    }
}

/// What is asked of a text, which is not to be too long.
fn text_told(alloc: Global, verb: &str, text: &str, out: &mut String) -> Result<(), CaseFault> {
    if text.len() > 1_000_000 {
        return Err(CaseFault::Unreadable);
    }
    match verb {
        "end" => Ok(put_place(out, end_place(text))?),
        "kept" => put_kept(out, &lexed(alloc, text)?),
        _ => list_told(verb, &tokens(alloc, text), out),
    }
}

fn put_kept(out: &mut String, lexed: &Lexed) -> Result<(), CaseFault> {
    write!(out, "{}", lexed.tokens.as_slice().len())?;
    match lexed.fault {
        Some(fault) => {
            out.push_str(", ")?;
            put_fault(out, fault)
        }
        None => Ok(()),
    }
}

/// What is asked of tokens that may not be read.
fn list_told(
    verb: &str,
    read: &Result<Tokens, ReadFault>,
    out: &mut String,
) -> Result<(), CaseFault> {
    match read {
        Ok(tokens) => tokens_told(verb, tokens.as_slice(), out),
        Err(fault) => put_fault(out, *fault),
    }
}

/// What is asked of tokens.
fn tokens_told(verb: &str, tokens: &[Token], out: &mut String) -> Result<(), CaseFault> {
    let put = match verb {
        "fault" => out.push_str("none"),
        "layout" => put_layout(out, tokens),
        "tokens" => put_tokens(out, tokens),
        "first" => return put_first(out, tokens),
        _ => return Err(CaseFault::Unreadable),
    };
    Ok(put?)
}

fn put_first(out: &mut String, tokens: &[Token]) -> Result<(), CaseFault> {
    match tokens.first() {
        Some(token) => Ok(put_kind(out, token.kind)?),
        None => Err(CaseFault::Unreadable),
    }
}

/// How many tokens are of a kind.
fn count(tokens: &[Token], kind: TokenKind) -> usize {
    let mut n = 0usize;
    for token in tokens {
        if token.kind == kind {
            n = n.saturating_add(1);
        }
    }
    n
}

fn put_layout(out: &mut String, tokens: &[Token]) -> Result<(), AllocError> {
    let lines = count(tokens, TokenKind::Newline);
    let indents = count(tokens, TokenKind::Indent);
    let dedents = count(tokens, TokenKind::Dedent);
    write!(out, "{lines} {indents} {dedents}")
}

fn put_kind(out: &mut String, kind: TokenKind) -> Result<(), AllocError> {
    match kind {
        TokenKind::Number(number) => write!(out, "number {}", Number(number)),
        TokenKind::Keyword(keyword) => write!(out, "keyword {keyword:?}"),
        TokenKind::Sign(symbol) => write!(out, "sign {symbol:?}"),
        TokenKind::Name => out.push_str("name"),
        TokenKind::Text => out.push_str("text"),
        TokenKind::Newline => out.push_str("newline"),
        TokenKind::Indent => out.push_str("indent"),
        TokenKind::Dedent => out.push_str("dedent"),
    }
}

/// A token, with where its bytes begin and end, and with its place.
fn put_token(out: &mut String, token: &Token) -> Result<(), AllocError> {
    put_kind(out, token.kind)?;
    write!(out, " {}..{} ", token.start, token.end)?;
    put_place(out, token.place)
}

fn put_tokens(out: &mut String, tokens: &[Token]) -> Result<(), AllocError> {
    for (k, token) in tokens.iter().enumerate() {
        put_between(out, k, "; ")?;
        put_token(out, token)?;
    }
    Ok(())
}
