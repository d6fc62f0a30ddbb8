//! Simplex runs on scaled programs, and single pivots.
ghost use Rattle.std.specs.Prelude.{◌≡◌};
ghost use Rattle.dcx_tab.specs.First.{first_tableau};
ghost use Rattle.dcx_tab.specs.Views.{table_of};
ghost use Rattle.dcx_simplex.specs.Whole.{RunEnds};

use crate::lines::{CaseFault, Number, Numbers, Passing, count};
use dcx_frac::{Frac, Fracs};
use dcx_linear::RowKind;
use dcx_lp_answer::{LpAnswer, LpStatus, MultiplierStop, RowNote, multipliers};
use dcx_simplex::{LpEnd, read_end, solve};
use dcx_tab::{Dense, Program, Tableau, WideAt};
use std::alloc::{AllocError, Global};

/// The end of the run on the program, with the answer where there is one.
fn run(
    alloc: Global,
    program: &Program,
    limit: u64,
) -> Result<(LpEnd, Option<LpAnswer>), AllocError> {
    let mut tableau = Dense::build(alloc, program)?;
    let end = solve(&mut tableau, limit);
    let answer = match end {
        LpEnd::Optimal { .. } => Some(read_end(alloc, &tableau, program, &end)?),
        LpEnd::Infeasible { .. } => Some(read_end(alloc, &tableau, program, &end)?),
        LpEnd::Unbounded { .. } => Some(read_end(alloc, &tableau, program, &end)?),
        LpEnd::Wide { .. } | LpEnd::PivotLimit { .. } => None,
    };
    Ok((end, answer))
}

fn put_end(out: &mut String, end: LpEnd) -> Result<(), AllocError> {
    match end {
        LpEnd::Optimal { pivots } => write!(out, "optimal after {pivots}"),
        LpEnd::Infeasible { pivots } => write!(out, "infeasible after {pivots}"),
        LpEnd::Unbounded { pivots, column } => {
            write!(out, "unbounded after {pivots} along {column}")
        }
        LpEnd::Wide {
            pivots,
            row,
            column,
        } => write!(out, "wide after {pivots} at row {row} column {column}"),
        LpEnd::PivotLimit { count } => write!(out, "limit {count}"),
    }
}

fn status_word(status: LpStatus) -> &'static str {
    match status {
        LpStatus::Optimal => "optimal",
        LpStatus::Infeasible => "infeasible",
        LpStatus::Unbounded => "unbounded",
    }
}

/// Writes the reduced costs of rows.
fn put_costs(out: &mut String, rows: &[RowNote]) -> Result<(), AllocError> {
    out.push_str("; rows")?;
    for row in rows {
        write!(out, " {}", Number(row.reduced_cost))?;
    }
    Ok(())
}

/// Writes a ray.
fn put_ray(out: &mut String, changes: &[Frac]) -> Result<(), AllocError> {
    out.push_str("; ray")?;
    for change in changes {
        write!(out, " {}", Number(*change))?;
    }
    Ok(())
}

/// Writes the status, the number, the slope, the columns, the reduced costs of the rows, and the ray.
fn put_answer(out: &mut String, answer: &LpAnswer) -> Result<(), AllocError> {
    let status = status_word(answer.status);
    let (number, slope) = (Number(answer.number), Number(answer.slope));
    write!(out, "; {status} {number} slope {slope}; columns ")?;
    write!(out, "{}", Numbers(answer.columns.as_slice()))?;
    put_costs(out, answer.rows.as_slice())?;
    put_ray(out, answer.ray.as_slice())
}

fn put_ended(out: &mut String, end: LpEnd, answer: &Option<LpAnswer>) -> Result<(), CaseFault> {
    put_end(out, end)?;
    match answer {
        Some(answer) => Ok(put_answer(out, answer)?),
        None => Ok(()),
    }
}

/// Writes how a run with so many pivots at most ends.
pub(crate) fn put_run(
    alloc: Global,
    program: &Program,
    limit: u64,
    out: &mut String,
) -> Result<(), CaseFault> {
    let (end, answer) = run(alloc, program, limit)?;
    put_ended(out, end, &answer)
}

/// The kind of rows of a word.
fn kind(word: &str) -> Result<RowKind, CaseFault> {
    match word {
        "at_most" => Ok(RowKind::AtMost),
        "equal" => Ok(RowKind::Equal),
        _ => Err(CaseFault::Unreadable),
    }
}

fn put_formed(out: &mut String, formed: &Result<Fracs, MultiplierStop>) -> Result<(), CaseFault> {
    match formed {
        Ok(numbers) => Ok(write!(out, "{}", Numbers(numbers.as_slice()))?),
        Err(MultiplierStop::Wide { row, passes }) => {
            Ok(write!(out, "row {row}: {}", Passing(*passes))?)
        }
        Err(MultiplierStop::Memory) => Err(CaseFault::Memory),
    }
}

/// Writes the multipliers of the rows between two numbers.
fn put_part(
    alloc: Global,
    answer: &LpAnswer,
    kind: RowKind,
    from: u32,
    to: u32,
    out: &mut String,
) -> Result<(), CaseFault> {
    if from > to || to as usize > answer.rows.as_slice().len() {
        return Err(CaseFault::Unreadable);
    }
    put_formed(out, &multipliers(alloc, answer, kind, from, to))
}

/// Writes the multipliers of an answer: the kind of the rows, the first one, and the one behind the last.
fn put_shown(
    alloc: Global,
    answer: &Option<LpAnswer>,
    words: &[&str],
    out: &mut String,
) -> Result<(), CaseFault> {
    match answer {
        Some(answer) => match *words {
            [word, from, to] => {
                put_part(alloc, answer, kind(word)?, count(from)?, count(to)?, out)
            }
            _ => Err(CaseFault::Unreadable),
        },
        None => Err(CaseFault::Unreadable),
    }
}

/// Writes multipliers of the answer of a run that comes to an end.
pub(crate) fn put_multipliers(
    alloc: Global,
    program: &Program,
    words: &[&str],
    out: &mut String,
) -> Result<(), CaseFault> {
    let (_, answer) = run(alloc, program, 1000)?;
    put_shown(alloc, &answer, words, out)
}

/// Writes the sides of a tableau, and how many of its columns are plain.
fn put_sides(out: &mut String, tableau: &Dense) -> Result<(), AllocError> {
    let (rows, columns, plain) = (tableau.rows(), tableau.columns(), tableau.plain());
    write!(out, "{rows} rows, {columns} columns, {plain} plain; ")
}

fn put_pivoted(out: &mut String, pivoted: Result<(), WideAt>) -> Result<(), AllocError> {
    match pivoted {
        Ok(()) => out.push_str("done"),
        Err(at) => write!(out, "wide at row {} column {}", at.row, at.column),
    }
}

/// Writes the basic column of a row, and a column.
fn put_column(out: &mut String, tableau: &Dense, row: u32, column: u32) -> Result<(), AllocError> {
    if row >= tableau.rows() || column >= tableau.columns() {
        return Ok(());
    }
    write!(out, "; basic {}; column", tableau.basis(row))?;
    for of_row in 0..tableau.rows() {
        write!(out, " {}", tableau.entry(of_row, column))?;
    }
    Ok(())
}

/// Pivots, where there is an entry.
fn pivoted(tableau: &mut Dense, row: u32, column: u32, out: &mut String) -> Result<(), AllocError> {
    put_sides(out, tableau)?;
    if row >= tableau.rows() || column >= tableau.columns() || tableau.entry(row, column) == 0 {
        return out.push_str("no pivot");
    }
    put_pivoted(out, tableau.pivot(row, column))?;
    put_column(out, tableau, row, column)
}

/// Pivots, where there is an entry, and writes where it passes, and then the basic column of its row and its column.
pub(crate) fn put_pivot(
    alloc: Global,
    program: &Program,
    row: u32,
    column: u32,
    out: &mut String,
) -> Result<(), CaseFault> {
    let mut tableau = Dense::build(alloc, program)?;
    Ok(pivoted(&mut tableau, row, column, out)?)
}
