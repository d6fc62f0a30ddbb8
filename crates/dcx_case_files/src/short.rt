//! Cases of one line: what a check gives of a script, `|`, and the script behind the lines that all begin with.

use crate::bytes::push_escaped;
use crate::made::if_read;
use std::alloc::{AllocError, Global};

/// A line and a column, both from 1.
#[derive(Clone, Copy)]
struct Mark {
    line: usize,
    column: usize,
}

/// The start of a script.
const START: Mark = Mark { line: 1, column: 1 };

/// A script, and the report that is wanted of it.
#[derive(Drop)]
pub(crate) struct Short {
    pub script: Vec<u8>,
    /// The place of the mark, or the start where there is none.
    mark: Mark,
    pub report: String,
    /// Whether it must be accepted, where the report may go on.
    pub is_accepted: bool,
}

/// The place behind the last of these bytes.
fn place_behind(bytes: &[u8]) -> Mark {
    let mut mark = START;
    for byte in bytes {
        if *byte == b'\n' {
            mark.line = mark.line.saturating_add(1);
            mark.column = 1;
        } else {
            mark.column = mark.column.saturating_add(1);
        }
    }
    mark
}

/// Adds a curvature, or a curvature and dpp.
fn push_curvature(report: &mut String, words: &str) -> Result<bool, AllocError> {
    match words.split_once(' ') {
        Some((curvature, dpp)) => write!(report, "{curvature}\ndpp {dpp}\n")?,
        None => write!(report, "{words}\n")?,
    }
    Ok(true)
}

/// Adds the report of a sense and `SIGN CURVATURE`, or of these and dpp, up to the last that is told. Answers false where a
/// word is lacking.
fn push_accepted(report: &mut String, sense: &str, words: &str) -> Result<bool, AllocError> {
    let Some((sign, rest)) = words.split_once(' ') else {
        return Ok(false);
    };
    write!(report, "accepted\nobjective {sense} sign {sign} curvature ")?;
    push_curvature(report, rest)
}

/// Adds the report of a number and `NAME`, or of these and what the refusal carries, at this place.
fn push_refused(
    report: &mut String,
    number: &str,
    words: &str,
    mark: Mark,
) -> Result<bool, AllocError> {
    let (name, carried) = words.split_once(' ').unwrap_or((words, ""));
    let blank = if carried.is_empty() { "" } else { " " };
    let Mark { line, column } = mark;
    write!(
        report,
        "refused script {number} {name} at {line}:{column}{blank}{carried}\n"
    )?;
    Ok(true)
}

impl Short {
    /// Takes what a text stands for, and the place of its mark, which is taken out. Answers false where a backslash stands
    /// for nothing.
    fn take(&mut self, text: &str) -> Result<bool, AllocError> {
        let Some((before, after)) = text.split_once('^') else {
            return push_escaped(&mut self.script, text);
        };
        let is_read = push_escaped(&mut self.script, before)?;
        self.mark = place_behind(&self.script);
        Ok(push_escaped(&mut self.script, after)? && is_read)
    }

    /// Takes the words of a line. Answers false where they want nothing.
    fn want(&mut self, words: &str) -> Result<bool, AllocError> {
        let Some((first, rest)) = words.split_once(' ') else {
            return Ok(false);
        };
        self.is_accepted = matches!(first, "minimize" | "maximize");
        if self.is_accepted {
            push_accepted(&mut self.report, first, rest)
        } else {
            push_refused(&mut self.report, first, rest, self.mark)
        }
    }

    /// Takes a line. Answers false where it is no case.
    fn read(&mut self, line: &str) -> Result<bool, AllocError> {
        let Some((words, text)) = line.split_once('|') else {
            return Ok(false);
        };
        if self.take(text.strip_prefix(' ').unwrap_or(text))? {
            self.want(words.trim_end())
        } else {
            Ok(false)
        }
    }
}

/// The case of a line, behind these bytes; `None` where the line is no case.
///
/// A `^` in the script marks the place of the refusal. Without one it is the start of the script.
pub(crate) fn short_case(
    alloc: Global,
    start: &[u8],
    line: &str,
) -> Result<Option<Short>, AllocError> {
    let script = start.to_vec(alloc)?;
    let mut short = Short {
        script,
        mark: START,
        report: String::new(alloc),
        is_accepted: false,
    };
    let is_read = short.read(line);
    if_read(is_read, short)
}
