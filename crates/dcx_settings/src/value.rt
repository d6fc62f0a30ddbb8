//! Reading a value: a number, a list of numbers or a list of rows.
ghost use Rattle.std.specs.Prelude.{◌≡◌, ◌<◌, ◌≤◌, ◌*◌, List, [], ◌++◌, length, Some, IfOk, IfErr};
ghost use Rattle.dcx_frac.specs.declared.fraction.Frac.{Frac};
ghost use Rattle.dcx_shape.specs.Sides.{HasFewEntries};
ghost use Rattle.dcx_shape.specs.Shape.{sides_of};
ghost use Rattle.dcx_settings.specs.Terminal.{terminals, comma, open_square};
ghost use Rattle.dcx_settings.specs.Steps.{most_numbers, is_full_row, Lacks, IsRowBegun, IsRowRead, RowStopsAt, AreRowsRead, RowsStopAt, IsValueRead, ValueStopsAt, matrix_begun};
ghost use Rattle.dcx_settings.specs.Machine.{assigned, bracket};

use crate::number::number;
use crate::role::{Mark, eat, expect};
use crate::stop::Stop;
use dcx_frac::{Frac, Fracs};
use dcx_shape::{Shape, Sides};
use dcx_tokens::Token;
use std::alloc::Global;

/// The most numbers of a value.
const MOST_NUMBERS: usize = 20_000;

/// How many numbers a row may have, where it is to have this width.
fn most(width: Option<usize>) -> usize
    ensures { result ≡ most_numbers width }
{
    match width {
        None => MOST_NUMBERS,
        Some(width) => width,
    }
}

/// Whether a row of so many numbers has the width that it is to have.
fn is_full(width: Option<usize>, count: usize) -> bool
    ensures { result ≡ is_full_row width count }
{
    match width {
        None => true,
        Some(width) => count == width,
    }
}

/// Puts the numbers at the front of a row into the empty list. Answers the tokens behind them.
fn push_numbers<'a>(
    text: &[u8],
    tokens: &'a [Token],
    width: Option<usize>,
    found: &mut Vec<Frac>,
) -> Result<&'a [Token], Stop<'a>>
    requires some { 1 ≤ most_numbers width }
    requires empty { found.old.items ≡ [] }
    ensures ok { IfOk result (λ rest. IsRowBegun width (terminals text.now tokens.now) found.new.items (terminals text.now rest.now)) }
    ensures stop { IfErr result (RowStopsAt width text.now (terminals text.now tokens.now)) }
    ensures ends { IfOk result (λ rest. Lacks comma (terminals text.now rest.now)) }
    ensures shorter { IfOk result (λ rest. length rest.now < length tokens.now) }
{
    let (first, behind) = number(text, tokens)?;
    found.push(first)?;
    let mut rest = behind;
    'numbers: while let Some(behind) = eat(text, rest, Mark::Comma) {
        if found.len() >= most(width) {
            return Err(Stop::At(rest));
        }
        let (next, behind) = number(text, behind)?;
        found.push(next)?;
        rest = behind;
    }
    Ok(rest)
}

/// The numbers at the front of a row, and the tokens behind them.
fn numbers<'a>(
    alloc: Global,
    text: &[u8],
    tokens: &'a [Token],
    width: Option<usize>,
) -> Result<(Vec<Frac>, &'a [Token]), Stop<'a>>
    requires { 1 ≤ most_numbers width }
    ensures ok { IfOk result (λ x. IsRowBegun width (terminals text.now tokens.now) x.0.items (terminals text.now x.1.now)) }
    ensures stop { IfErr result (RowStopsAt width text.now (terminals text.now tokens.now)) }
    ensures ends { IfOk result (λ x. Lacks comma (terminals text.now x.1.now)) }
    ensures shorter { IfOk result (λ x. length x.1.now < length tokens.now) }
{
    let mut found = Vec::new(alloc);
    let rest = push_numbers(text, tokens, width, &mut found)?;
    Ok((found, rest))
}

/// The numbers of a row behind its bracket, and the tokens behind it.
fn row<'a>(
    alloc: Global,
    text: &[u8],
    tokens: &'a [Token],
    width: Option<usize>,
) -> Result<(Vec<Frac>, &'a [Token]), Stop<'a>>
    requires { 1 ≤ most_numbers width }
    ensures ok { IfOk result (λ x. IsRowRead width (terminals text.now tokens.now) x.0.items (terminals text.now x.1.now)) }
    ensures stop { IfErr result (RowStopsAt width text.now (terminals text.now tokens.now)) }
    ensures shorter { IfOk result (λ x. length x.1.now < length tokens.now) }
{
    let (found, rest) = numbers(alloc, text, tokens, width)?;
    match eat(text, rest, Mark::CloseSquare) {
        None => Err(Stop::At(rest)),
        Some(behind) => {
            if is_full(width, found.len()) {
                Ok((found, behind))
            } else {
                Err(Stop::At(rest))
            }
        }
    }
}

/// Rows of a matrix, one after the other.
#[derive(Drop)]
struct MatrixRows {
    count: usize,
    width: usize,
    numbers: Vec<Frac>,
}

/// Puts the row behind its bracket at the end of the numbers. Answers the tokens behind it.
fn push_row<'a>(
    alloc: Global,
    text: &[u8],
    tokens: &'a [Token],
    width: usize,
    numbers: &mut Vec<Frac>,
) -> Result<&'a [Token], Stop<'a>>
    requires { 1 ≤ width }
    ensures ok { IfOk result (λ rest. (fs : List Frac) × IsRowRead (Some width) (terminals text.now tokens.now) fs (terminals text.now rest.now) × (numbers.new.items ≡ numbers.old.items ++ fs)) }
    ensures stop { IfErr result (RowStopsAt (Some width) text.now (terminals text.now tokens.now)) }
    ensures shorter { IfOk result (λ rest. length rest.now < length tokens.now) }
{
    let (next, rest) = row(alloc, text, tokens, Some(width))?;
    numbers.extend_from_slice(&next)?;
    Ok(rest)
}

/// The rows of a matrix behind the first two brackets, and the tokens behind them.
fn rows<'a>(
    alloc: Global,
    text: &[u8],
    tokens: &'a [Token],
) -> Result<(MatrixRows, &'a [Token]), Stop<'a>>
    ensures ok { IfOk result (λ x. AreRowsRead x.0.width x.0.count (terminals text.now tokens.now) x.0.numbers.items (terminals text.now x.1.now)) }
    ensures stop { IfErr result (RowsStopAt text.now (terminals text.now tokens.now)) }
    ensures ends { IfOk result (λ x. Lacks comma (terminals text.now x.1.now)) }
    ensures shorter { IfOk result (λ x. length x.1.now < length tokens.now) }
{
    let (mut numbers, behind) = row(alloc, text, tokens, None)?;
    let width = numbers.len();
    let mut count = 1;
    let mut rest = behind;
    'rows: while let Some(behind) = eat(text, rest, Mark::Comma) {
        if numbers.len() + width > MOST_NUMBERS {
            return Err(Stop::At(rest));
        }
        let inner = expect(text, behind, Mark::OpenSquare)?;
        let next = push_row(alloc, text, inner, width, &mut numbers)?;
        count += 1;
        rest = next;
    }
    Ok((
        MatrixRows {
            count,
            width,
            numbers,
        },
        rest,
    ))
}

/// The shape of so many rows that are so long.
fn matrix_shape(count: usize, width: usize) -> Shape
    requires few { HasFewEntries (Sides.Matrix count width) }
    requires fits { (count ≤ 20000) × (width ≤ 20000) }
    ensures { sides_of result ≡ Sides.Matrix count width }
{
    match Shape::matrix(count as u32, width as u32) {
        Some(shape) => shape,
        None => unreachable!(),
    }
}

/// The shape of a list of so many numbers.
fn vector_shape(count: usize) -> Shape
    requires { (0 < count) × (count ≤ 20000) }
    ensures { sides_of result ≡ Sides.Vector count }
{
    match Shape::vector(count as u32) {
        Some(shape) => shape,
        None => unreachable!(),
    }
}

/// The matrix behind its first two brackets, and the tokens behind it.
fn matrix<'a>(
    alloc: Global,
    text: &[u8],
    tokens: &'a [Token],
) -> Result<(Shape, Fracs, &'a [Token]), Stop<'a>>
    ensures ok { IfOk result (λ x. IsValueRead matrix_begun (terminals text.now tokens.now) x.0 x.1 (terminals text.now x.2.now)) }
    ensures stop { IfErr result (ValueStopsAt matrix_begun text.now (terminals text.now tokens.now)) }
    ensures shorter { IfOk result (λ x. length x.2.now < length tokens.now) }
{
    let (found, rest) = rows(alloc, text, tokens)?;
    let behind = expect(text, rest, Mark::CloseSquare)?;
    let shape = matrix_shape(found.count, found.width);
    Ok((shape, Fracs::from_vec(found.numbers), behind))
}

/// The list behind its bracket, and the tokens behind it.
fn vector<'a>(
    alloc: Global,
    text: &[u8],
    tokens: &'a [Token],
) -> Result<(Shape, Fracs, &'a [Token]), Stop<'a>>
    requires { Lacks open_square (terminals text.now tokens.now) }
    ensures ok { IfOk result (λ x. IsValueRead bracket (terminals text.now tokens.now) x.0 x.1 (terminals text.now x.2.now)) }
    ensures stop { IfErr result (ValueStopsAt bracket text.now (terminals text.now tokens.now)) }
    ensures shorter { IfOk result (λ x. length x.2.now < length tokens.now) }
{
    let (found, rest) = row(alloc, text, tokens, None)?;
    let shape = vector_shape(found.len());
    Ok((shape, Fracs::from_vec(found), rest))
}

/// The number that is a value, and the tokens behind it.
fn scalar<'a>(
    alloc: Global,
    text: &[u8],
    tokens: &'a [Token],
) -> Result<(Shape, Fracs, &'a [Token]), Stop<'a>>
    requires { Lacks open_square (terminals text.now tokens.now) }
    ensures ok { IfOk result (λ x. IsValueRead assigned (terminals text.now tokens.now) x.0 x.1 (terminals text.now x.2.now)) }
    ensures stop { IfErr result (ValueStopsAt assigned text.now (terminals text.now tokens.now)) }
    ensures shorter { IfOk result (λ x. length x.2.now < length tokens.now) }
{
    let (found, rest) = number(text, tokens)?;
    let mut numbers = Vec::new(alloc);
    numbers.push(found)?;
    Ok((Shape::scalar(), Fracs::from_vec(numbers), rest))
}

/// The list or the matrix behind its bracket, and the tokens behind it.
fn bracketed<'a>(
    alloc: Global,
    text: &[u8],
    tokens: &'a [Token],
) -> Result<(Shape, Fracs, &'a [Token]), Stop<'a>>
    ensures ok { IfOk result (λ x. IsValueRead bracket (terminals text.now tokens.now) x.0 x.1 (terminals text.now x.2.now)) }
    ensures stop { IfErr result (ValueStopsAt bracket text.now (terminals text.now tokens.now)) }
    ensures shorter { IfOk result (λ x. length x.2.now < length tokens.now) }
{
    match eat(text, tokens, Mark::OpenSquare) {
        Some(rest) => matrix(alloc, text, rest),
        None => vector(alloc, text, tokens),
    }
}

/// The value behind an equal sign: its shape, its numbers row after row, and the tokens behind it.
pub fn value<'a>(
    alloc: Global,
    text: &[u8],
    tokens: &'a [Token],
) -> Result<(Shape, Fracs, &'a [Token]), Stop<'a>>
    ensures ok { IfOk result (λ x. IsValueRead assigned (terminals text.now tokens.now) x.0 x.1 (terminals text.now x.2.now)) }
    ensures stop { IfErr result (ValueStopsAt assigned text.now (terminals text.now tokens.now)) }
    ensures shorter { IfOk result (λ x. length x.2.now < length tokens.now) }
{
    match eat(text, tokens, Mark::OpenSquare) {
        Some(rest) => bracketed(alloc, text, rest),
        None => scalar(alloc, text, tokens),
    }
}
