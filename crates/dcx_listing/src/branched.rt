//! How branch and bound with a limit of nodes ends, as a line.
ghost use Rattle.std.specs.Prelude.{◌≡◌, ◌<◌};
ghost use Rattle.dcx_rules.specs.Verdicts.{IsVerdictOf};
ghost use Rattle.dcx_tree.specs.Meaning.{IsAccepted};

use crate::calls::push_number;
use dcx_answer::{BranchStop, WholeAnswer};
use dcx_front::{Accepted, Work, accept};
use dcx_outcomes::{Session, begin, branch};
use dcx_point::Setting;
use dcx_rules::Verdict;
use dcx_steps::Steps;
use dcx_tree::Problem;
use std::alloc::{AllocError, Global};
use std::marker::Brand;
use std::sync::ledger::{Blank, Ledger};

/// The most pivots of a node's run, as in a run of the program.
const MOST_PIVOTS: u64 = 200_000;

/// Adds how it ends: with a whole optimum and its minimized value, without a whole point, or at a stop.
fn push_end(text: &mut String, end: &Result<WholeAnswer, BranchStop>) -> Result<(), AllocError> {
    match end {
        Ok(WholeAnswer::Optimal { value, nodes, .. }) => {
            text.push_str("optimal ")?;
            push_number(text, *value)?;
            write!(text, " nodes {nodes}\n")
        }
        Ok(WholeAnswer::Infeasible { nodes, .. }) => write!(text, "infeasible nodes {nodes}\n"),
        Err(BranchStop::RelaxationUnbounded) => text.push_str("relaxation unbounded\n"),
        Err(BranchStop::NodeLimit { limit }) => write!(text, "node limit {limit}\n"),
        Err(BranchStop::Node { node, .. }) => write!(text, "node {node} stopped\n"),
        Err(BranchStop::Memory) => Err(AllocError),
    }
}

/// Adds how it ends over a session's program at a setting.
fn push_run<L: Ledger>(
    alloc: Global,
    text: &mut String,
    session: &mut Session,
    setting: &Setting,
    nodes: u32,
    steps: &mut Steps<L>,
) -> Result<(), AllocError> {
    match session.program(alloc, setting, steps) {
        Ok(program) => {
            let end = branch(
                alloc,
                session.problem(),
                &program,
                setting,
                MOST_PIVOTS,
                nodes,
            );
            drop(program);
            let pushed = push_end(text, &end);
            drop(end);
            pushed
        }
        Err(_) => text.push_str("no program\n"),
    }
}

/// The line of a problem at a setting, with a counter of its own.
fn line_with<L: Ledger>(
    alloc: Global,
    problem: Problem,
    verdict: Verdict,
    setting: &Setting,
    nodes: u32,
    blank: Blank,
) -> Result<String, AllocError>
    requires name { blank.name ≡ L.name }
    requires parts { blank.parts ≡ L.parts }
    requires some { 0 < blank.parts }
    requires accepted { IsAccepted problem }
    requires verdict { IsVerdictOf problem verdict }
{
    let mut steps = Steps::<L>::new(blank);
    let mut text = String::new(alloc);
    let mut session = begin(alloc, problem, verdict, &mut steps)?;
    let pushed = push_run(alloc, &mut text, &mut session, setting, nodes, &mut steps);
    drop(session);
    pushed?;
    Ok(text)
}

/// How branch and bound with at most so many nodes ends over the problem of the script that the bytes spell, at the setting that the
/// script ends with; `None` where the script isn't accepted. `AllocError` where there is no memory for it.
pub fn branch_line(alloc: Global, nodes: u32, bytes: &[u8]) -> Result<Option<String>, AllocError> {
    match accept(alloc, bytes) {
        Ok(accepted) => {
            let Accepted { work, verdict } = accepted;
            let Work {
                problem,
                events,
                last,
            } = work;
            drop(events);
            let line = line_with::<Brand>(alloc, problem, verdict, &last, nodes, Blank::new(1));
            drop(last);
            match line {
                Ok(line) => Ok(Some(line)),
                Err(_) => Err(AllocError),
            }
        }
        Err(_) => Ok(None),
    }
}
