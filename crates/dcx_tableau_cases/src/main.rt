//! Runs linear programs over the dense tableau and the linked one.
//!
//! `compare FILE..` runs each program under every limit of pivots up to the end of its run, over both tableaus, compares
//! them entry by entry after each run, and tells how the last one ends. `dense FILE LIMIT` and `linked FILE LIMIT` make one
//! run over one tableau, so that it can be timed. `given` says how a file gives a program.
#![tactic(auto)]

mod compared;
mod given;
mod told;

use anyhow::{Context, Result, bail};
use compared::compare;
use dcx_chained::Chained;
use dcx_simplex::solve;
use dcx_std::integer_rows;
use dcx_tab::{Dense, Program, Tableau};
use std::alloc::AllocError;
use std::rt::{Env, Files};
use std::{env, fs};
use told::tell;

/// The program that a file gives, in whole numbers.
fn program(rt: &(impl Files + AllocGlobal), name: &str) -> Result<Program> {
    let text = fs::read_to_string(rt, name)?;
    let rows = given::read(rt.alloc(), text.as_str())?;
    integer_rows(rt.alloc(), &rows).context("no scaled program")
}

/// One run over a tableau, where it could be built.
fn run_over<T: Tableau>(
    rt: &impl Print,
    name: &str,
    built: Result<T, AllocError>,
    limit: u64,
) -> Result<()>
where
    T: Drop,
{
    let mut tableau = built?;
    let end = solve(&mut tableau, limit);
    tell(rt, name, &tableau, end)
}

/// One run of a program over the tableau that the word names.
fn run_program(
    rt: &(impl Print + AllocGlobal),
    word: &str,
    name: &str,
    program: &Program,
    limit: u64,
) -> Result<()> {
    match word {
        "dense" => run_over(rt, name, Dense::build(rt.alloc(), program), limit),
        "linked" => run_over(rt, name, Chained::build(rt.alloc(), program), limit),
        _ => bail!("no such word"),
    }
}

/// One run of the program of a file.
fn run(rt: &(impl Files + Print + AllocGlobal), word: &str, name: &str, limit: &str) -> Result<()> {
    let limit = limit.parse::<u64>()?;
    let program = program(rt, name)?;
    run_program(rt, word, name, &program, limit)
}

/// Compares the runs of the program of a file.
fn compare_file(rt: &(impl Files + Print + AllocGlobal), name: &str) -> Result<()> {
    let program = program(rt, name)?;
    compare(rt, name, &program)
}

/// Compares the runs of the programs of files.
fn compare_files(rt: &(impl Files + Print + AllocGlobal), names: &[String]) -> Result<()> {
    for name in names {
        compare_file(rt, name.as_str())?;
    }
    Ok(())
}

/// Runs what the words ask for.
fn run_words(rt: &(impl Files + Print + AllocGlobal), words: &[String]) -> Result<()> {
    match words {
        [word, names @ ..] if word.as_str() == "compare" => compare_files(rt, names),
        [word, name, limit] => run(rt, word.as_str(), name.as_str(), limit.as_str()),
        _ => bail!("compare FILE.. | dense FILE LIMIT | linked FILE LIMIT"),
    }
}

/// Adds the words behind the program's name.
fn put_words(rt: &(impl Env + AllocGlobal), words: &mut Vec<String>) -> Result<()> {
    for word in env::args(rt)?.skip(1) {
        words.push(word)?;
    }
    Ok(())
}

fn main(rt: HostRuntime) -> Result<()> {
    let mut words = Vec::new(rt.alloc());
    put_words(&rt, &mut words)?;
    run_words(&rt, &words)
}
