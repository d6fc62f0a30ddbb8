//! Runs the worked cases of data/, tells each one that differs with what was wanted and what came, and how many there are.
#![tactic(auto)]

mod judging;
mod running;

use dcx_case_files::{Count, entries};
use judging::run_entry;
use std::alloc::AllocError;
use std::rt::{Env, Files};
use std::{env, fs, io};

/// Runs the cases of a file: a page with examples, or a list of cases.
fn run_file(
    rt: &(impl Files + Print + AllocGlobal),
    name: &str,
    count: &mut Count,
) -> io::Result<()> {
    for entry in entries(rt, name)? {
        run_entry(rt, name, entry, count)?;
    }
    Ok(())
}

/// Adds a name and a line end.
fn push_name(names: &mut String, name: &str) -> Result<(), AllocError> {
    names.push_str(name)?;
    names.push_str("\n")
}

/// Adds the names that the words are, one a line.
fn push_names(rt: &(impl Env + AllocGlobal), names: &mut String) -> io::Result<()> {
    for name in env::args(rt)?.skip(1) {
        push_name(names, name.as_str())?;
    }
    Ok(())
}

/// The names of the files to run, one a line: those that the words name, or else those of the index.
fn names(rt: &(impl Files + Env + AllocGlobal)) -> io::Result<String> {
    let mut names = String::new(rt.alloc());
    push_names(rt, &mut names)?;
    if names.is_empty() {
        fs::read_to_string(rt, "index.txt")
    } else {
        Ok(names)
    }
}

/// Runs the cases of files, of which each line names one, and tells how many there are and how many differ.
fn run_files(rt: &(impl Files + Print + AllocGlobal), names: &str) -> io::Result<()> {
    let mut count = Count::new();
    for name in names.lines() {
        run_file(rt, name, &mut count)?;
    }
    let Count { cases, differ } = count;
    println!(rt; "{cases} cases, {differ} differ")
}

fn main(rt: HostRuntime) -> io::Result<()> {
    let names = names(&rt)?;
    run_files(&rt, names.as_str())
}
