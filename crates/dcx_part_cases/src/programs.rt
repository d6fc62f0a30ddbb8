//! Scaled programs of rows, and what comes of them.

pub(crate) mod made;
pub(crate) mod rows;
pub(crate) mod runs;

use crate::lines::{CaseFault, Passing, count, words};
use crate::programs::made::put_program;
use crate::programs::rows::{form_of, rows_of};
use crate::programs::runs::{put_multipliers, put_pivot, put_run};
use dcx_answer::Site;
use dcx_frac::{Frac, Passes};
use dcx_linear::Rows;
use dcx_std::{RowStop, check_size, integer_rows, least_multiple};
use dcx_tab::Program;
use std::alloc::{AllocError, Global};

/// `ASKED | KINDS | OBJECTIVE | ROW | ..`, where a form is its constant and the coefficients of all unknowns: `size`, `made` for
/// the program, `run LIMIT`, `pivot ROW COLUMN`, `multipliers KIND FROM TO` of the answer; and `multiple COUNT | FORM` for the number that makes a form whole.
pub(crate) fn put_of_rows(
    alloc: Global,
    first: &str,
    rest: &[&str],
    out: &mut String,
) -> Result<(), CaseFault> {
    let words = words(alloc, first)?;
    told(alloc, &words, rest, out)
}

fn told(alloc: Global, words: &[&str], rest: &[&str], out: &mut String) -> Result<(), CaseFault> {
    match *words {
        ["multiple", unknowns] => multiple_told(alloc, unknowns, rest, out),
        _ => {
            let rows = rows_of(alloc, rest)?;
            rows_told(alloc, words, &rows, out)
        }
    }
}

/// What is asked of rows.
fn rows_told(
    alloc: Global,
    words: &[&str],
    rows: &Rows<Frac>,
    out: &mut String,
) -> Result<(), CaseFault> {
    match *words {
        ["size"] => Ok(put_size(out, rows)?),
        _ => made_told(alloc, words, &integer_rows(alloc, rows), out),
    }
}

/// What is asked of a program, or why there is none.
fn made_told(
    alloc: Global,
    words: &[&str],
    made: &Result<Program, RowStop>,
    out: &mut String,
) -> Result<(), CaseFault> {
    match made {
        Ok(program) => program_told(alloc, words, program, out),
        Err(stop) => Ok(put_stop(out, *stop)?),
    }
}

/// What is asked of a program.
fn program_told(
    alloc: Global,
    words: &[&str],
    program: &Program,
    out: &mut String,
) -> Result<(), CaseFault> {
    match *words {
        ["made"] => Ok(put_program(out, program)?),
        ["run", limit] => put_run(alloc, program, u64::from(count(limit)?), out),
        ["multipliers", ref words @ ..] => put_multipliers(alloc, program, words, out),
        ["pivot", row, column] => put_pivot(alloc, program, count(row)?, count(column)?, out),
        _ => Err(CaseFault::Unreadable),
    }
}

fn put_stop(out: &mut String, stop: RowStop) -> Result<(), AllocError> {
    match stop {
        RowStop::Wide(Site::Row { row, passes }) => write!(out, "row {row}: {}", Passing(passes)),
        RowStop::Wide(_) => out.push_str("wide elsewhere"),
        RowStop::TooLarge { rows, columns } => write!(out, "{rows} rows, {columns} columns"),
        RowStop::Memory => Err(AllocError),
    }
}

fn put_size(out: &mut String, rows: &Rows<Frac>) -> Result<(), AllocError> {
    match check_size(rows) {
        Ok(()) => out.push_str("fits"),
        Err(stop) => put_stop(out, stop),
    }
}

fn put_multiple(out: &mut String, multiple: Result<u128, Passes>) -> Result<(), CaseFault> {
    match multiple {
        Ok(multiple) => Ok(write!(out, "{multiple}")?),
        Err(passes) => Ok(write!(out, "{}", Passing(passes))?),
    }
}

fn multiple_told(
    alloc: Global,
    unknowns: &str,
    texts: &[&str],
    out: &mut String,
) -> Result<(), CaseFault> {
    let unknowns = count(unknowns)?;
    match *texts {
        [text] => put_multiple(out, least_multiple(&form_of(alloc, unknowns, text)?)),
        _ => Err(CaseFault::Unreadable),
    }
}
