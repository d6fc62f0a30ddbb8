//! The program of a problem from what is kept of its nodes.
ghost use Rattle.std.specs.Prelude.{◌≡◌, ◌+◌, ◌<◌, ◌≤◌, ◌^◌, ◌++◌, [], false, List, length, map, sum_by, IfOk, slice_index_or};
ghost use Rattle.std.specs.List.{All};
ghost use Rattle.dcx_point.specs.Pairs.{Pairs};
ghost use Rattle.dcx_convex.specs.Rules.{Rules};
ghost use Rattle.dcx_tree.specs.Problems.{roots_of};
ghost use Rattle.dcx_linear.specs.declared.row.UnknownKind.{UnknownKind};
ghost use Rattle.dcx_linear.specs.Widths.{form_width, rows_width};
ghost use Rattle.dcx_unknowns.specs.Layout.{constraint_rows, unknown_kinds};
ghost use Rattle.dcx_entries.specs.Standing.{all_forms};
ghost use Rattle.dcx_entries.specs.Kept.{IsKept};
ghost use Rattle.dcx_graph.specs.Program.{graph_row, GivesProgramWith, GivesProgram};
ghost use Rattle.dcx_graph.specs.Reduced.{HasOrigins};
ghost use Rattle.dcx_graph.specs.Stops.{TellsBy};

use crate::constraint::constraint_entries;
use crate::origin::{Origin, row_origins};
use crate::reduced::Reduced;
use crate::rows::{entry_rows, objective, push_graph};
use crate::stop::ReduceStop;
use dcx_answer::Site;
use dcx_entries::{Formed, FormedRow, Standing};
use dcx_linear::{Coef, Form, Row, RowList, Rows, UnknownKinds};
use dcx_tree::Problem;
use std::alloc::Global;

/// What a problem asks: the rows of its constraints and what is to be small, with the origins of all rows.
#[derive(Drop)]
struct Asked<C: Coef> {
    /// The rows of the constraints.
    rows: Vec<Row<C>>,
    /// What is to be small.
    objective: Form<C>,
    /// Where the rows of the constraints come from, and then those of the graphs.
    origins: Vec<Origin>,
}

/// What a problem asks, where these forms stand for its nodes and their graphs have these rows.
fn what_is_asked<C: Coef>(
    alloc: Global,
    problem: &Problem,
    standing: &[Standing<C>],
    graph: &[FormedRow<C>],
) -> Result<Asked<C>, ReduceStop>
    requires { sum_by constraint_rows problem.now.constraints + length graph.now < 2 ^ 32 }
    ensures { (kinds : List UnknownKind)
        → TellsBy Site.Row result (λ a. record { rows = a.rows.items ++ map graph_row graph.now; objective = a.objective; kinds = kinds; origins = a.origins.items })
        (GivesProgramWith C.of_number C.number_of C.sum_gives C.change_gives problem.now (all_forms C.of_number standing.now) graph.now kinds) }
{
    let entries = constraint_entries(alloc, problem.constraints.as_slice())?;
    let origins = row_origins(alloc, &entries, graph)?;
    let rows = entry_rows(alloc, standing, &entries)?;
    let number = (entries.len() + graph.len()) as u32;
    match objective(alloc, problem, standing, number) {
        Ok(objective) => {
            drop(entries);
            Ok(Asked {
                rows,
                objective,
                origins,
            })
        }
        Err(stop) => {
            drop((entries, origins, rows));
            Err(stop)
        }
    }
}

/// The program of what is asked, with the rows of graphs behind.
fn finished<C: Coef>(
    asked: Asked<C>,
    graph: Vec<FormedRow<C>>,
    kinds: UnknownKinds,
) -> Result<Reduced<C>, ReduceStop>
    requires origins { HasOrigins (asked.rows.items ++ map graph_row graph.items) asked.origins.items }
    requires rows { rows_width (asked.rows.items ++ map graph_row graph.items) ≤ length kinds }
    requires objective { form_width asked.objective ≤ length kinds }
    ensures program { TellsBy Site.Row result (λ q. q.program) (λ r. r ≡ Ok
        (record { rows = asked.rows.items ++ map graph_row graph.items; objective = asked.objective; kinds = kinds; origins = asked.origins.items })) }
    ensures from_map { IfOk result (λ q. q.from_map ≡ false) }
{
    let Asked {
        mut rows,
        objective,
        origins,
    } = asked;
    match push_graph(&mut rows, graph) {
        Ok(()) => {
            let rows = Rows {
                rows: RowList::from_vec(rows),
                objective,
                kinds,
            };
            Ok(Reduced::new(rows, origins, false))
        }
        Err(_) => {
            drop((rows, objective, origins, kinds));
            Err(ReduceStop::Memory)
        }
    }
}

/// The program of a problem whose nodes are formed, over unknowns of these kinds: the rows of the constraints and then those of
/// the graphs, what is to be small, and where each row comes from.
///
/// `Wide` exactly where an operation passes 128 bits, at the first one, with its row: what is to be small counts as the row
/// behind all others. `Memory` is the only other stop.
pub(crate) fn program<C: Coef>(
    alloc: Global,
    problem: &Problem,
    formed: Formed<C>,
    kinds: UnknownKinds,
) -> Result<Reduced<C>, ReduceStop>
    requires few { sum_by constraint_rows problem.now.constraints + length formed.rows < 2 ^ 32 }
    requires roots { All (λ a. All (λ f. form_width f ≤ length kinds) (slice_index_or (all_forms C.of_number formed.standing) a [])) (roots_of problem.now.objective problem.now.constraints) }
    requires rows { All (λ r. form_width r.form ≤ length kinds) formed.rows }
    ensures program { (rules : Rules) (setting : Pairs) (kept : IsKept C.of_number C.number_of C.sum_gives C.change_gives C.parameter_gives rules problem.now setting formed)
        → kinds ≡ unknown_kinds rules problem.now → TellsBy Site.Row result (λ q. q.program) (GivesProgram C.of_number C.number_of C.sum_gives C.change_gives rules problem.now kept.table) }
    ensures from_map { IfOk result (λ q. q.from_map ≡ false) }
{
    let Formed { standing, rows } = formed;
    let graph = rows.into_vec();
    match what_is_asked(alloc, problem, standing.as_slice(), &graph) {
        Ok(asked) => {
            drop(standing);
            finished(asked, graph, kinds)
        }
        Err(stop) => {
            drop((standing, graph, kinds));
            Err(stop)
        }
    }
}
