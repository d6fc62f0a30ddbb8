//! The line of what stops a reduction.

use crate::calls::push_number;
use dcx_answer::Site;
use dcx_frac::{Op, Passes};
use dcx_graph::ReduceStop;
use std::alloc::AllocError;

/// Adds the operation that passes 128 bits, and its operands.
fn push_passes(text: &mut String, passes: Passes) -> Result<(), AllocError> {
    text.push_str(match passes.op {
        Op::Add => " add ",
        Op::Sub => " sub ",
        Op::Mul => " mul ",
        Op::Div => " div ",
        Op::Lcm => " lcm ",
    })?;
    push_number(text, passes.left)?;
    text.push_str(" ")?;
    push_number(text, passes.right)?;
    text.push_str("\n")
}

/// Adds where an operation passes 128 bits.
fn push_site(text: &mut String, site: Site) -> Result<(), AllocError> {
    match site {
        Site::Node {
            node,
            entry,
            passes,
        } => {
            let node = node.0;
            write!(text, "wide node {node} entry {entry}")?;
            push_passes(text, passes)
        }
        Site::Row { row, passes } => {
            write!(text, "wide row {row}")?;
            push_passes(text, passes)
        }
        Site::Map { row, passes } => {
            write!(text, "wide map {row}")?;
            push_passes(text, passes)
        }
        Site::Pivot { .. } | Site::Answer { .. } => text.push_str("wide elsewhere\n"),
    }
}

/// Adds what stops a reduction. Want of memory is one here too.
pub(crate) fn push_stop(text: &mut String, stop: ReduceStop) -> Result<(), AllocError> {
    match stop {
        ReduceStop::TooLarge { rows, columns } => {
            write!(text, "too large rows {rows} columns {columns}\n")
        }
        ReduceStop::ZeroDivisor { node, entry } => {
            let node = node.0;
            write!(text, "zero divisor node {node} entry {entry}\n")
        }
        ReduceStop::Wide(site) => push_site(text, site),
        ReduceStop::Memory => Err(AllocError),
    }
}
