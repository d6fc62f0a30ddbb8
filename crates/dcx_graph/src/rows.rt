//! The rows of the constraints of a problem and of the graphs of its nodes, and what is to be small.
ghost use Rattle.std.specs.Prelude.{◌≡◌, ◌<◌, ◌^◌, ◌++◌, length, map, OnOk};
ghost use Rattle.dcx_entries.specs.Standing.{all_forms};
ghost use Rattle.dcx_graph.specs.Program.{AtRow, EntryRow, EntryRows, Objective, graph_row};
ghost use Rattle.dcx_graph.specs.Stops.{Tells, TellsBy, stop_at_row};

use crate::constraint::ConstraintEntry;
use crate::side::{difference, least, node_entry};
use crate::stop::ReduceStop;
use dcx_answer::Site;
use dcx_entries::{FormedRow, Standing};
use dcx_linear::{Coef, CoefStop, Form, Row, RowKind};
use dcx_tree::Problem;
use std::alloc::{AllocError, Global};

/// What stops row `number`.
fn stop_at_row(number: u32, stop: CoefStop) -> ReduceStop
    ensures { result ≡ stop_at_row number stop }
{
    match stop {
        CoefStop::Passes(passes) => ReduceStop::Wide(Site::Row {
            row: number,
            passes,
        }),
        CoefStop::Memory => ReduceStop::Memory,
    }
}

/// Row `number`, which is that of an entry of a constraint.
fn entry_row<C: Coef>(
    alloc: Global,
    standing: &[Standing<C>],
    number: u32,
    entry: &ConstraintEntry,
) -> Result<Row<C>, ReduceStop>
    ensures { Tells Site.Row result (AtRow number (EntryRow C.of_number C.number_of C.sum_gives C.change_gives (all_forms C.of_number standing.now) entry.now)) }
{
    match difference(alloc, standing, entry.left, entry.right, entry.entry) {
        Ok(form) => Ok(Row {
            kind: entry.kind,
            form,
        }),
        Err(stop) => Err(stop_at_row(number, stop)),
    }
}

/// The rows of these entries of constraints, in order.
///
/// `Wide` at the first row where an operation passes 128 bits.
pub(crate) fn entry_rows<C: Coef>(
    alloc: Global,
    standing: &[Standing<C>],
    entries: &[ConstraintEntry],
) -> Result<Vec<Row<C>>, ReduceStop>
    requires { length entries.now < 2 ^ 32 }
    ensures { TellsBy Site.Row result (λ v. v.items) (EntryRows C.of_number C.number_of C.sum_gives C.change_gives (all_forms C.of_number standing.now) entries.now) }
{
    let mut rows = Vec::new(alloc);
    'entries: for (index, entry) in entries.iter().enumerate() {
        let row = entry_row(alloc, standing, index as u32, entry)?;
        rows.push(row)?;
    }
    Ok(rows)
}

/// What is to be small, where the objective counts as row `number`.
///
/// `Wide` where an operation passes 128 bits.
pub(crate) fn objective<C: Coef>(
    alloc: Global,
    problem: &Problem,
    standing: &[Standing<C>],
    number: u32,
) -> Result<Form<C>, ReduceStop>
    ensures { Tells Site.Row result (AtRow number (Objective C.of_number C.number_of C.sum_gives C.change_gives problem.now (all_forms C.of_number standing.now))) }
{
    let entry = node_entry(standing, problem.objective, 0);
    match least(alloc, problem.sense, &entry) {
        Ok(form) => Ok(form),
        Err(stop) => Err(stop_at_row(number, stop)),
    }
}

/// Adds the rows of graphs, in order.
pub(crate) fn push_graph<C: Coef>(
    rows: &mut Vec<Row<C>>,
    graph: Vec<FormedRow<C>>,
) -> Result<(), AllocError>
    ensures { OnOk result (rows.new.items ≡ rows.old.items ++ map graph_row graph.items) }
{
    'graph: for row in graph {
        rows.push(Row {
            kind: RowKind::AtMost,
            form: row.form,
        })?;
    }
    Ok(())
}
