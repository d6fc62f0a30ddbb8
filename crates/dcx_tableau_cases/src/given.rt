//! The program that a file gives.
//!
//! The first line has a letter for each unknown: `f` where it is free, `n` where it is at least 0. Each other line has a word
//! and a form, a constant and then terms like `-3/4x0`: `min`, first, what is to be small, and then `most` a form that is at
//! most 0, and `equal` one that is 0.
ghost use Rattle.std.specs.Prelude.{◌≤◌, ◌<◌, ◌≡◌, length, IfOk};
ghost use Rattle.dcx_linear.specs.Widths.{form_width, rows_width};

use anyhow::{Context, Result, bail};
use dcx_frac::Frac;
use dcx_linear::{Form, Row, RowKind, RowList, Rows, UnknownKind, UnknownKinds};
use std::alloc::Global;

/// The fraction of a word like `-3/4` or `6`.
fn fraction(word: &str) -> Result<Frac> {
    let (num, den) = word.split_once('/').unwrap_or((word, "1"));
    Frac::of(num.parse::<i128>()?, den.parse::<i128>()?).context("no fraction")
}

/// A multiple of an unknown.
fn multiple(alloc: Global, coefficient: Frac, unknown: u32, count: usize) -> Result<Form<Frac>>
    requires { unknown < count }
    ensures { IfOk result (λ f. form_width f ≤ count) }
{
    let one = Form::<Frac>::unknown(alloc, unknown)?;
    Ok(one.scale(alloc, &coefficient)?)
}

/// The form of a word: a number, or a multiple of one of so many unknowns.
fn part(alloc: Global, word: &str, count: usize) -> Result<Form<Frac>>
    ensures { IfOk result (λ f. form_width f ≤ count) }
{
    let Some((coefficient, unknown)) = word.split_once('x') else {
        return Ok(Form::<Frac>::number(alloc, fraction(word)?));
    };
    let unknown = unknown.parse::<u32>()?;
    if unknown as usize >= count {
        bail!("no such unknown");
    }
    multiple(alloc, fraction(coefficient)?, unknown, count)
}

/// The sum of two forms.
fn sum(alloc: Global, first: &Form<Frac>, second: &Form<Frac>, count: usize) -> Result<Form<Frac>>
    requires first { form_width first.now ≤ count }
    requires second { form_width second.now ≤ count }
    ensures { IfOk result (λ f. form_width f ≤ count) }
{
    Ok(first.add(alloc, second)?)
}

/// The sum of the words.
fn form(alloc: Global, words: &str, count: usize) -> Result<Form<Frac>>
    ensures { IfOk result (λ f. form_width f ≤ count) }
{
    let mut total = Form::<Frac>::number(alloc, Frac::zero());
    'words: for word in words.split_whitespace() {
        total = sum(alloc, &total, &part(alloc, word, count)?, count)?;
    }
    Ok(total)
}

/// The row of a line.
fn row(alloc: Global, line: &str, count: usize) -> Result<Row<Frac>>
    ensures { IfOk result (λ r. form_width r.form ≤ count) }
{
    let (word, words) = line.split_once(' ').context("no row")?;
    let kind = match word {
        "most" => RowKind::AtMost,
        "equal" => RowKind::Equal,
        _ => bail!("no such kind of row"),
    };
    let form = form(alloc, words, count)?;
    Ok(Row { kind, form })
}

/// The rows of the lines.
fn rows(alloc: Global, lines: &str, count: usize) -> Result<Vec<Row<Frac>>>
    ensures { IfOk result (λ rs. rows_width rs.items ≤ count) }
{
    let mut rows = Vec::new(alloc);
    'lines: for line in lines.lines() {
        rows.push(row(alloc, line, count)?)?;
    }
    Ok(rows)
}

/// The kinds of unknowns that the letters name.
fn kinds(alloc: Global, letters: &str) -> Result<Vec<UnknownKind>> {
    let mut kinds = Vec::new(alloc);
    for letter in letters.chars() {
        match letter {
            'f' => kinds.push(UnknownKind::Free)?,
            'n' => kinds.push(UnknownKind::Nonneg)?,
            _ => bail!("no such kind of unknown"),
        }
    }
    Ok(kinds)
}

/// The program of a file.
pub(crate) fn read(alloc: Global, text: &str) -> Result<Rows<Frac>> {
    let (letters, rest) = text.split_once('\n').context("no unknowns")?;
    let (cost, lines) = rest.split_once('\n').context("no cost")?;
    let kinds = kinds(alloc, letters)?;
    let words = cost.strip_prefix("min ").context("no min")?;
    let objective = form(alloc, words, kinds.len())?;
    let rows = rows(alloc, lines, kinds.len())?;
    Ok(Rows {
        rows: RowList::from_vec(rows),
        objective,
        kinds: UnknownKinds::from_vec(kinds),
    })
}
