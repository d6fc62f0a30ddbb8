//! The reports of runs that have no memory.
//!
//! A library in memory has as much as is asked for, so nothing that it gives leads to one.

use dcx_answer::Site;
use dcx_frac::{Frac, Op, Passes};
use dcx_report::{Outcome, OutcomeEnd, Outcomes, Run, Sense, Stop, Word, report_text};
use dcx_shape::Place;
use dcx_tree::NodeId;
use std::alloc::{AllocError, Global};

/// A setting that has no memory for its answer.
fn short() -> Outcome {
    Outcome {
        end: OutcomeEnd::Stop(Stop::Memory),
        place: None,
    }
}

/// A setting at which this operation of node 7, at 9:31, passes 128 bits.
fn wide(passes: Passes) -> Outcome {
    let site = Site::Node {
        node: NodeId(7),
        entry: 0,
        passes,
    };
    Outcome {
        end: OutcomeEnd::Stop(Stop::Wide(site)),
        place: Some(Place {
            line: 9,
            column: 31,
        }),
    }
}

/// The product of two numbers that passes 128 bits; `None` where there are no such numbers.
fn product() -> Option<Passes> {
    Some(Passes {
        op: Op::Mul,
        left: Frac::of(100_000_000_000_000_000_000, 1)?,
        right: Frac::of(10_000_000_000_000_000_000, 1)?,
    })
}

/// One setting, which is short of memory.
fn setting(alloc: Global) -> Result<Run, AllocError> {
    let outcomes = vec![in alloc; short()]?;
    Ok(Run::Solved {
        word: Word::Setting,
        sense: Sense::Minimize,
        outcomes: Outcomes::from_vec(outcomes),
        warm: None,
    })
}

/// A trial whose first setting is wide, where that is known, and whose last one is short of memory.
fn trial(alloc: Global) -> Result<Run, AllocError> {
    let mut outcomes = Vec::new(alloc);
    if let Some(passes) = product() {
        outcomes.push(wide(passes))?;
    }
    outcomes.push(short())?;
    Ok(Run::Trial {
        size: 2,
        outcomes: Outcomes::from_vec(outcomes),
    })
}

/// The report of a run, which is no longer needed.
fn report_of(alloc: Global, run: Run) -> Result<Option<Vec<u8>>, AllocError> {
    let text = report_text(alloc, &run);
    drop(run);
    Ok(Some(text?.into_vec()))
}

/// The report of a run that has no memory: of one that ends there under the word `run`, of one with a `setting` that does, or of a
/// `trial` with one; `None` under any other word. `AllocError` where there is no memory for the report.
pub fn short_report(alloc: Global, word: &str) -> Result<Option<Vec<u8>>, AllocError> {
    match word {
        "run" => report_of(alloc, Run::Memory),
        "setting" => report_of(alloc, setting(alloc)?),
        "trial" => report_of(alloc, trial(alloc)?),
        _ => Ok(None),
    }
}
