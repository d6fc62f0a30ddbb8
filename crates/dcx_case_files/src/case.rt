//! A case, and one of several parts as far as it is read.

use crate::count::Wanted;
use crate::fronts::{Fronts, fronts_of};
use crate::given::Given;
use crate::made::{after, both, set};
use std::alloc::{AllocError, Global};

/// A case.
#[derive(Drop)]
pub struct Case {
    /// The line on which it begins, from 1.
    pub line: usize,
    /// What the program is given.
    pub given: Given,
    /// What must come of it.
    pub wanted: Wanted,
    /// What is wanted of the fronts of `model.py`, where some are.
    pub fronts: Option<Fronts>,
}

/// What stands in a file of cases.
#[derive(Drop)]
pub enum Entry {
    /// A case.
    Case(Case),
    /// A line, from 1, that says none, and its text, or what is lacking.
    Unreadable {
        /// The line.
        line: usize,
        /// Its text, or what is lacking.
        text: String,
    },
}

/// Adds what stands next.
fn put_entry(entries: &mut Vec<Entry>, entry: Entry) -> Result<(), AllocError> {
    entries.push(entry)?;
    Ok(())
}

/// Adds a line that says no case.
pub(crate) fn put_unreadable(
    alloc: Global,
    entries: &mut Vec<Entry>,
    line: usize,
    text: &str,
) -> Result<(), AllocError> {
    let text = String::from_str(alloc, text)?;
    put_entry(entries, Entry::Unreadable { line, text })
}

/// Adds a case of which no fronts are wanted.
pub(crate) fn put_case(
    entries: &mut Vec<Entry>,
    line: usize,
    given: Result<Given, AllocError>,
    wanted: Result<Wanted, AllocError>,
) -> Result<(), AllocError> {
    let (given, wanted) = both(given, wanted)?;
    put_entry(
        entries,
        Entry::Case(Case {
            line,
            given,
            wanted,
            fronts: None,
        }),
    )
}

/// What is given, with a file more.
pub(crate) fn with_file(
    alloc: Global,
    given: Result<Given, AllocError>,
    name: &str,
    bytes: Result<Vec<u8>, AllocError>,
) -> Result<Given, AllocError> {
    let (mut given, bytes) = both(given, bytes)?;
    let put = given.put(alloc, name, bytes);
    after(put, given)
}

/// A case of several parts, as far as it is read.
#[derive(Drop)]
pub(crate) struct Parts {
    line: usize,
    given: Given,
    wanted: Option<Wanted>,
    fronts: Option<Fronts>,
}

impl Parts {
    /// The case of these words, of which no part is read, as the open one.
    pub(crate) fn of(alloc: Global, line: usize, words: &str) -> Result<Option<Parts>, AllocError> {
        let given = Given::of(alloc, words)?;
        Ok(Some(Parts {
            line,
            given,
            wanted: None,
            fronts: None,
        }))
    }

    /// Takes a file.
    fn take_file(&mut self, alloc: Global, name: &str, body: &[u8]) -> Result<bool, AllocError> {
        let bytes = body.to_vec(alloc)?;
        self.given.put(alloc, name, bytes)?;
        Ok(true)
    }

    /// Takes what is wanted. Answers false where the status is none.
    fn want(
        &mut self,
        alloc: Global,
        status: &str,
        report: &[u8],
        goes_on: bool,
    ) -> Result<bool, AllocError> {
        let Ok(status) = status.parse::<u8>() else {
            return Ok(false);
        };
        let report = report.to_vec(alloc)?;
        self.wanted = Some(Wanted {
            status: Some(status),
            report,
            goes_on,
        });
        Ok(true)
    }

    /// Takes what is wanted of fronts. Answers false where the text says something else.
    fn take_fronts(&mut self, alloc: Global, text: &str) -> Result<bool, AllocError> {
        set(&mut self.fronts, fronts_of(alloc, text))?;
        Ok(self.fronts.is_some())
    }

    /// Takes a call that fails, or how much the sink takes. Answers false where the text is no number.
    fn take_number(&mut self, word: &str, text: &str) -> Result<bool, AllocError> {
        let Ok(number) = text.parse::<u64>() else {
            return Ok(false);
        };
        match word {
            "read" => self.given.reads.push(number)?,
            "write" => self.given.writes.push(number)?,
            _ => self.given.most = number as usize,
        }
        Ok(true)
    }

    /// Takes a part. Answers false where there is no such part.
    pub(crate) fn take(
        &mut self,
        alloc: Global,
        word: &str,
        text: &str,
        body: &[u8],
    ) -> Result<bool, AllocError> {
        match word {
            "file" => self.take_file(alloc, text, body),
            "gives" => self.want(alloc, text, body, false),
            "begins" => self.want(alloc, text, body, true),
            "fronts" => self.take_fronts(alloc, text),
            "read" | "write" | "most" => self.take_number(word, text),
            _ => Ok(false),
        }
    }

    /// Adds the case, once all of it is read.
    pub(crate) fn put(self, alloc: Global, entries: &mut Vec<Entry>) -> Result<(), AllocError> {
        let Parts {
            line,
            given,
            wanted,
            fronts,
        } = self;
        match wanted {
            Some(wanted) => put_entry(
                entries,
                Entry::Case(Case {
                    line,
                    given,
                    wanted,
                    fronts,
                }),
            ),
            None => put_unreadable(alloc, entries, line, "no report"),
        }
    }
}
