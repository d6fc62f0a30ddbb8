//! The cases of files, run one after another.
ghost use Rattle.std.specs.Prelude.{◌≡◌};

use crate::lines::fault::CaseFault;
use std::alloc::{AllocError, Global};
use std::fmt::Display;
use std::rt::Files;
use std::{fs, io};

/// What the cases of a file ask.
pub(crate) trait Cases {
    /// Writes what comes of a case, as a line wants it. `Unreadable` where the parts aren't such a case.
    fn answer(&self, alloc: Global, parts: &[&str], out: &mut String) -> Result<(), CaseFault>;
}

/// How many cases were run, and how many of them gave something else than they want.
#[derive(Clone, Copy)]
pub(crate) struct Tally {
    /// All cases.
    pub cases: u64,
    /// Those that differ.
    pub differ: u64,
}

/// Whether a line stands between cases: it is empty, or begins with `#`.
fn is_between(line: &str) -> bool {
    line.is_empty() || line.starts_with('#')
}

/// Adds the parts of what a line asks.
fn push_parts<'a>(parts: &mut Vec<&'a str>, asked: &'a str) -> Result<(), AllocError> {
    for part in asked.split('|') {
        parts.push(part.trim())?;
    }
    Ok(())
}

/// Writes what comes of what a line asks.
fn answer<C: Cases>(
    alloc: Global,
    cases: &C,
    line: &str,
    out: &mut String,
) -> Result<(), CaseFault> {
    let mut parts = Vec::new(alloc);
    push_parts(&mut parts, line)?;
    cases.answer(alloc, &parts, out)
}

/// Prints a line that gives something else than it wants, and what came. Answers that it does.
fn tell<T: Display>(rt: &impl Print, asked: &str, wanted: &str, came: &T) -> io::Result<bool> {
    println!(rt; "{asked}=> {wanted}\n  but: {came}")?;
    Ok(true)
}

/// Prints what comes of what a line asks, where that is something else than it wants. Whether it is.
fn differs_from<C: Cases>(
    rt: &(impl Print + AllocGlobal),
    cases: &C,
    asked: &str,
    wanted: &str,
) -> io::Result<bool> {
    let mut came = String::new(rt.alloc());
    match answer(rt.alloc(), cases, asked, &mut came) {
        Ok(()) if came.as_str() == wanted => Ok(false),
        Ok(()) => tell(rt, asked, wanted, &came),
        Err(fault) => tell(rt, asked, wanted, &fault),
    }
}

/// Prints a line that gives something else than it wants, with what came, or that says no case. Whether it does.
fn differs<C: Cases>(rt: &(impl Print + AllocGlobal), cases: &C, line: &str) -> io::Result<bool> {
    match line.split_once("=>") {
        Some((asked, wanted)) => differs_from(rt, cases, asked, wanted.trim()),
        None => {
            println!(rt; "no case says: {line}")?;
            Ok(true)
        }
    }
}

impl Tally {
    /// No case yet.
    pub(crate) fn new() -> Tally
        ensures cases { result.cases ≡ 0 }
        ensures differ { result.differ ≡ 0 }
    {
        Tally {
            cases: 0,
            differ: 0,
        }
    }

    /// Runs the cases of a text, and prints each that gives something else.
    fn count<C: Cases>(
        &mut self,
        rt: &(impl Print + AllocGlobal),
        cases: &C,
        text: &str,
    ) -> io::Result<()> {
        for line in text.lines() {
            if is_between(line) {
                continue;
            }
            self.cases = self.cases.saturating_add(1);
            if differs(rt, cases, line)? {
                self.differ = self.differ.saturating_add(1);
            }
        }
        Ok(())
    }

    /// Runs the cases of a file, and prints each that gives something else. An error where the file isn't read or the
    /// output isn't written.
    pub(crate) fn run<C: Cases>(
        &mut self,
        rt: &(impl Files + Print + AllocGlobal),
        cases: &C,
        file: &str,
    ) -> io::Result<()> {
        let text = fs::read_to_string(rt, file)?;
        self.count(rt, cases, text.as_str())
    }

    /// Prints how many cases there were, and how many differ.
    pub(crate) fn print(&self, rt: &impl Print) -> io::Result<()> {
        println!(rt; "{} cases, {} differ", self.cases, self.differ)
    }
}
