//! What stands in a file of cases, run and judged.

use crate::running::outcome;
use dcx_case_files::{At, Came, Case, Count, Entry, Fronts, Given, Wanted};
use std::alloc::{AllocError, Global};
use std::io;

/// What comes of what is given, with a file `model.py` of these bytes.
fn came_with(alloc: Global, given: &mut Given, bytes: &[u8]) -> Result<Came, AllocError> {
    let bytes = bytes.to_vec(alloc)?;
    given.put(alloc, "model.py", bytes)?;
    outcome(alloc, given)
}

/// What the words give of a file `model.py` with these bytes.
fn came_of(alloc: Global, words: &str, bytes: &[u8]) -> Result<Came, AllocError> {
    let mut given = Given::of(alloc, words)?;
    came_with(alloc, &mut given, bytes)
}

/// Judges what came of a front of so many bytes.
fn judge_front(
    rt: &(impl Print + AllocGlobal),
    at: At,
    fronts: &Fronts,
    length: usize,
    came: &Came,
    count: &mut Count,
) -> io::Result<()> {
    let fits = fronts.fits(rt.alloc(), came)?;
    count.judge_front(rt, at, length, fits, came)
}

/// Runs the words with each front of the bytes as `model.py`.
fn run_fronts(
    rt: &(impl Print + AllocGlobal),
    at: At,
    fronts: &Fronts,
    words: &str,
    bytes: &[u8],
    count: &mut Count,
) -> io::Result<()> {
    for length in 0..bytes.len() {
        let came = came_of(rt.alloc(), words, &bytes[..length])?;
        judge_front(rt, at, fronts, length, &came, count)?;
    }
    Ok(())
}

/// Runs the fronts of a case, where some are wanted.
fn run_fronts_of(
    rt: &(impl Print + AllocGlobal),
    at: At,
    given: &Given,
    fronts: Option<&Fronts>,
    count: &mut Count,
) -> io::Result<()> {
    let Some(fronts) = fronts else {
        return Ok(());
    };
    match given.files.get("model.py") {
        Some(bytes) => {
            let (words, bytes) = (given.words.as_str(), bytes.as_slice());
            run_fronts(rt, at, fronts, words, bytes, count)
        }
        None => count.refuse(rt, at, "no model.py"),
    }
}

/// Runs what a case gives, and judges it.
fn run_given(
    rt: &(impl Print + AllocGlobal),
    at: At,
    given: &mut Given,
    wanted: &Wanted,
    count: &mut Count,
) -> io::Result<()> {
    let came = outcome(rt.alloc(), given)?;
    count.judge(rt, at, given.words.as_str(), wanted, &came)
}

/// Runs a case: its fronts, and then what it gives.
fn run_parts(
    rt: &(impl Print + AllocGlobal),
    at: At,
    case: &mut Case,
    count: &mut Count,
) -> io::Result<()> {
    run_fronts_of(rt, at, &case.given, case.fronts.as_ref(), count)?;
    run_given(rt, at, &mut case.given, &case.wanted, count)
}

/// Runs a case.
fn run_case(
    rt: &(impl Print + AllocGlobal),
    file: &str,
    case: Case,
    count: &mut Count,
) -> io::Result<()> {
    let mut case = case;
    let at = At {
        file,
        line: case.line,
    };
    run_parts(rt, at, &mut case, count)
}

/// Runs what stands in a file of cases.
pub(crate) fn run_entry(
    rt: &(impl Print + AllocGlobal),
    file: &str,
    entry: Entry,
    count: &mut Count,
) -> io::Result<()> {
    match entry {
        Entry::Case(case) => run_case(rt, file, case, count),
        Entry::Unreadable { line, text } => count.refuse(rt, At { file, line }, text.as_str()),
    }
}
