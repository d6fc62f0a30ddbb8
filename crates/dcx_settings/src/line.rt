//! Reading lines: `{}`, or names with their values.
ghost use Rattle.std.specs.Prelude.{◌≡◌, ◌<◌, ◌≤◌, [], ◌∷◌, ◌++◌, length, IfOk, IfErr};
ghost use Rattle.dcx_settings.specs.declared.settings.SettingItem.{SettingItem};
ghost use Rattle.dcx_settings.specs.Terminal.{terminals, open_curly};
ghost use Rattle.dcx_settings.specs.Steps.{Lacks, HasNames, IsItemRead, ItemStopsAt, IsNewItemRead, NewItemStopsAt, GainsName, AreItemsRead, IsLineRead, LineStopsAt};

use crate::role::{Mark, eat, eat_name, expect};
use crate::settings::{SettingItem, SettingLine};
use crate::stop::Stop;
use crate::value::value;
use dcx_shape::Name;
use dcx_tokens::Token;
use std::alloc::Global;
use std::collections::BTreeSet;

/// The item behind its name, and the tokens behind it.
fn named_item<'a>(
    alloc: Global,
    text: &[u8],
    tokens: &'a [Token],
    called: &[u8],
) -> Result<(SettingItem, &'a [Token]), Stop<'a>>
    ensures ok { IfOk result (λ x. IsItemRead called.now (terminals text.now tokens.now) x.0 (terminals text.now x.1.now)) }
    ensures stop { IfErr result (ItemStopsAt called.now text.now (terminals text.now tokens.now)) }
    ensures shorter { IfOk result (λ x. length x.1.now < length tokens.now) }
{
    let inner = expect(text, tokens, Mark::Equal)?;
    let (shape, numbers, rest) = value(alloc, text, inner)?;
    let name = Name::from_vec(called.to_vec(alloc)?);
    Ok((
        SettingItem {
            name,
            shape,
            numbers,
        },
        rest,
    ))
}

/// The item at the front of the tokens, under a name that isn't among those before, and the tokens behind it.
fn item<'a, 'b>(
    alloc: Global,
    text: &'b [u8],
    tokens: &'a [Token],
    names: &mut BTreeSet<&'b [u8]>,
) -> Result<(SettingItem, &'a [Token]), Stop<'a>>
    ensures ok { IfOk result (λ x. IsNewItemRead names.old (terminals text.now tokens.now) x.0 (terminals text.now x.1.now)) }
    ensures stop { IfErr result (NewItemStopsAt names.old text.now (terminals text.now tokens.now)) }
    ensures names { IfOk result (λ x. GainsName names.old names.new x.0.name) }
    ensures shorter { IfOk result (λ x. length x.1.now < length tokens.now) }
{
    match eat_name(text, tokens) {
        None => Err(Stop::At(tokens)),
        Some((called, behind)) => {
            if names.insert(called)? {
                named_item(alloc, text, behind, called)
            } else {
                Err(Stop::At(tokens))
            }
        }
    }
}

/// Puts the item at the front of the tokens into the list, under a name that isn't among those before. Answers the tokens
/// behind it.
fn push_item<'a, 'b>(
    alloc: Global,
    text: &'b [u8],
    tokens: &'a [Token],
    names: &mut BTreeSet<&'b [u8]>,
    found: &mut Vec<SettingItem>,
) -> Result<&'a [Token], Stop<'a>>
    ensures ok { IfOk result (λ rest. (next : SettingItem) × IsNewItemRead names.old (terminals text.now tokens.now) next (terminals text.now rest.now)
        × GainsName names.old names.new next.name × (found.new.items ≡ found.old.items ++ next ∷ [])) }
    ensures stop { IfErr result (NewItemStopsAt names.old text.now (terminals text.now tokens.now)) }
    ensures shorter { IfOk result (λ rest. length rest.now < length tokens.now) }
{
    let (next, rest) = item(alloc, text, tokens, names)?;
    found.push(next)?;
    Ok(rest)
}

/// Puts the line of items at the front of the tokens into the empty list. Answers the tokens behind it.
fn push_items<'a, 'b>(
    alloc: Global,
    text: &'b [u8],
    tokens: &'a [Token],
    names: &mut BTreeSet<&'b [u8]>,
    found: &mut Vec<SettingItem>,
) -> Result<&'a [Token], Stop<'a>>
    requires some { 0 < length tokens.now }
    requires not_empty { Lacks open_curly (terminals text.now tokens.now) }
    requires unnamed { HasNames names.old [] }
    requires empty { found.old.items ≡ [] }
    ensures ok { IfOk result (λ rest. IsLineRead (terminals text.now tokens.now) found.new.items (terminals text.now rest.now)) }
    ensures stop { IfErr result (LineStopsAt text.now (terminals text.now tokens.now)) }
    ensures shorter { IfOk result (λ rest. length rest.now < length tokens.now) }
{
    let first = push_item(alloc, text, tokens, names, found)?;
    let mut rest = first;
    'items: while let Some(behind) = eat(text, rest, Mark::Semicolon) {
        let next = push_item(alloc, text, behind, names, found)?;
        rest = next;
    }
    let behind = expect(text, rest, Mark::Newline)?;
    Ok(behind)
}

/// The line of items at the front of the tokens, and the tokens behind it.
fn items<'a>(
    alloc: Global,
    text: &[u8],
    tokens: &'a [Token],
) -> Result<(SettingLine, &'a [Token]), Stop<'a>>
    requires some { 0 < length tokens.now }
    requires not_empty { Lacks open_curly (terminals text.now tokens.now) }
    ensures ok { IfOk result (λ x. IsLineRead (terminals text.now tokens.now) x.0 (terminals text.now x.1.now)) }
    ensures stop { IfErr result (LineStopsAt text.now (terminals text.now tokens.now)) }
    ensures shorter { IfOk result (λ x. length x.1.now < length tokens.now) }
{
    let mut names = BTreeSet::new(alloc);
    let mut found = Vec::new(alloc);
    let behind = push_items(alloc, text, tokens, &mut names, &mut found)?;
    Ok((SettingLine::from_vec(found), behind))
}

/// The line at the front of the tokens, and the tokens behind it.
pub fn line<'a>(
    alloc: Global,
    text: &[u8],
    tokens: &'a [Token],
) -> Result<(SettingLine, &'a [Token]), Stop<'a>>
    requires { 0 < length tokens.now }
    ensures ok { IfOk result (λ x. IsLineRead (terminals text.now tokens.now) x.0 (terminals text.now x.1.now)) }
    ensures stop { IfErr result (LineStopsAt text.now (terminals text.now tokens.now)) }
    ensures shorter { IfOk result (λ x. length x.1.now < length tokens.now) }
{
    match eat(text, tokens, Mark::OpenCurly) {
        None => items(alloc, text, tokens),
        Some(behind) => {
            let inner = expect(text, behind, Mark::CloseCurly)?;
            let rest = expect(text, inner, Mark::Newline)?;
            Ok((SettingLine::new(alloc), rest))
        }
    }
}
