//! Fronts of a script: what is wanted of each one but the whole.
ghost use Rattle.std.specs.Prelude.{◌↔◌, IfOk, IsTrue};
ghost use Rattle.std.specs.List.{Any};
ghost use Rattle.dcx_case_files.specs.Judging.{BeginsWith, refusal_front, Fits};

use crate::count::Came;
use crate::made::if_read;
use std::alloc::{AllocError, Global};

/// What is wanted of each front of `model.py` but the whole.
#[derive(Drop)]
pub struct Fronts {
    /// The status.
    pub status: u8,
    /// The refusals that there may be; none is named where there may be any.
    pub numbers: Vec<u8>,
}

/// Adds the numbers that are separated by blanks. Answers false where a word is none.
fn push_numbers(numbers: &mut Vec<u8>, text: &str) -> Result<bool, AllocError> {
    for word in text.split_whitespace() {
        let Ok(number) = word.parse::<u8>() else {
            return Ok(false);
        };
        numbers.push(number)?;
    }
    Ok(true)
}

/// What `STATUS`, or `STATUS of NUMBER NUMBER ..`, says of fronts; `None` where the text says something else.
pub(crate) fn fronts_of(alloc: Global, text: &str) -> Result<Option<Fronts>, AllocError> {
    let (status, rest) = text.split_once(" of ").unwrap_or((text, ""));
    let Ok(status) = status.parse::<u8>() else {
        return Ok(None);
    };
    let mut numbers = Vec::new(alloc);
    let is_read = push_numbers(&mut numbers, rest);
    if_read(is_read, Fronts { status, numbers })
}

/// Whether a report is of the refusal of this number.
fn refuses(alloc: Global, report: &[u8], number: u8) -> Result<bool, AllocError>
    ensures { IfOk result (λ refuses. IsTrue refuses ↔ BeginsWith (refusal_front number) report.now) }
{
    let mut front = String::new(alloc);
    write!(front, "refused script {number} ")?;
    Ok(report.starts_with(front.as_bytes()))
}

/// Whether a report is of the refusal of one of these numbers.
fn refuses_any(alloc: Global, report: &[u8], numbers: &[u8]) -> Result<bool, AllocError>
    ensures { IfOk result (λ refuses. IsTrue refuses ↔ Any (λ n. BeginsWith (refusal_front n) report.now) numbers.now) }
{
    match numbers {
        [] => Ok(false),
        [number, rest @ ..] => {
            if refuses(alloc, report, *number)? {
                Ok(true)
            } else {
                refuses_any(alloc, report, rest)
            }
        }
    }
}

impl Fronts {
    /// Whether this is wanted of a front. An error where there is no memory.
    pub fn fits(&self, alloc: Global, came: &Came) -> Result<bool, AllocError>
        ensures { IfOk result (λ fits. IsTrue fits ↔ Fits self.now came.now) }
    {
        if came.status != self.status {
            return Ok(false);
        }
        if self.numbers.is_empty() {
            return Ok(true);
        }
        refuses_any(alloc, &came.report, &self.numbers)
    }
}
