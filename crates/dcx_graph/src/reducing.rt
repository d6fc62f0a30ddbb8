//! The reduced program of a problem.
ghost use Rattle.std.specs.Prelude.{◌≡◌, ◌+◌, ◌≤◌, false, length, IfOk, OnOk};
ghost use Rattle.dcx_unknowns.specs.Layout.{marked, AreReduced, kinds_with, rows_with, columns_with, AreFew};
ghost use Rattle.dcx_nodes.specs.Marks.{AreFixed};
ghost use Rattle.dcx_rules.specs.Verdicts.{IsVerdictOf};
ghost use Rattle.dcx_graph.specs.Reducing.{ParametersAreGiven, layout_stop, form_stop, Reduces, OrMemory};

use crate::marks::{fixed_nodes, reduced_nodes};
use crate::program::program;
use crate::reduced::Reduced;
use crate::reducible::Reducible;
use crate::stop::ReduceStop;
use dcx_answer::Site;
use dcx_entries::FormStop;
use dcx_linear::UnknownKinds;
use dcx_nodes::form_nodes;
use dcx_point::Setting;
use dcx_rules::Verdict;
use dcx_steps::Steps;
use dcx_tree::Problem;
use dcx_unknowns::{LayoutStop, lay_out};
use std::alloc::Global;
use std::sync::ledger::Ledger;

/// What stops a program that has no layout.
fn layout_stop(stop: LayoutStop) -> ReduceStop
    ensures { result ≡ layout_stop stop }
{
    match stop {
        LayoutStop::TooLarge { rows, columns } => ReduceStop::TooLarge { rows, columns },
        LayoutStop::Memory => ReduceStop::Memory,
    }
}

/// What stops a program whose nodes aren't formed.
fn form_stop(stop: FormStop) -> ReduceStop
    ensures { result ≡ form_stop stop }
{
    match stop {
        FormStop::Passes {
            node,
            entry,
            passes,
        } => ReduceStop::Wide(Site::Node {
            node,
            entry,
            passes,
        }),
        FormStop::ZeroDivisor { node, entry } => ReduceStop::ZeroDivisor { node, entry },
        FormStop::Memory => ReduceStop::Memory,
    }
}

/// The program of a problem that is laid out: which nodes are reduced, which reach no variable, and the kinds of all unknowns.
fn laid_out<C: Reducible, L: Ledger>(
    alloc: Global,
    problem: &Problem,
    setting: &Setting,
    reduced: &[bool],
    fixed: &[bool],
    kinds: UnknownKinds,
    steps: &mut Steps<L>,
) -> Result<Reduced<C>, ReduceStop>
    requires given { ParametersAreGiven C.rules C.can_read problem.now setting.now }
    requires counted { length reduced.now ≡ length problem.now.tree }
    requires reduces { AreReduced C.rules problem.now reduced.now }
    requires all { length fixed.now ≡ length problem.now.tree }
    requires fixes { AreFixed problem.now fixed.now }
    requires kinds { kinds ≡ kinds_with problem.now (marked reduced.now) }
    requires few { AreFew (rows_with problem.now (marked reduced.now)) (columns_with problem.now (marked reduced.now)) }
    ensures program { OrMemory result (λ q. q.program) (Reduces C.of_number C.number_of C.sum_gives C.change_gives C.parameter_gives C.rules problem.now setting.now) }
    ensures from_map { IfOk result (λ q. q.from_map ≡ false) }
    ensures steps { OnOk result (steps.new ≡ steps.old + length problem.now.tree) }
    ensures begun { steps.new ≤ steps.old + length problem.now.tree }
{
    match form_nodes(alloc, problem, reduced, fixed, setting, steps) {
        Ok(formed) => program(alloc, problem, formed, kinds),
        Err(stop) => Err(form_stop(stop)),
    }
}

/// The reduced program of a problem whose verdict is given: at the setting,
/// which gives each parameter an array of its shape, or with coefficients affine in the parameters, for which the setting isn't
/// read. One step is counted for each node.
///
/// `TooLarge` exactly over 600 rows or 2,400 columns, before anything else. Then `ZeroDivisor` where a divisor is 0, and `Wide`
/// with the site of a node where an operation passes 128 bits: at the first node and entry. Then `Wide` with the site of a row:
/// the first one. `Memory` where there is none.
pub fn reduce<C: Reducible, L: Ledger>(
    alloc: Global,
    problem: &Problem,
    verdict: &Verdict,
    setting: &Setting,
    steps: &mut Steps<L>,
) -> Result<Reduced<C>, ReduceStop>
    requires verdict { IsVerdictOf problem.now verdict.now }
    requires given { ParametersAreGiven C.rules C.can_read problem.now setting.now }
    ensures program { OrMemory result (λ q. q.program) (Reduces C.of_number C.number_of C.sum_gives C.change_gives C.parameter_gives C.rules problem.now setting.now) }
    ensures from_map { IfOk result (λ q. q.from_map ≡ false) }
    ensures steps { OnOk result (steps.new ≡ steps.old + length problem.now.tree) }
    ensures begun { steps.new ≤ steps.old + length problem.now.tree }
{
    let reduced = reduced_nodes(alloc, problem, verdict, C::are_parameters_affine())?;
    let fixed = fixed_nodes(alloc, problem, verdict)?;
    match lay_out(alloc, problem, &reduced) {
        Ok(layout) => laid_out(
            alloc,
            problem,
            setting,
            &reduced,
            &fixed,
            layout.kinds,
            steps,
        ),
        Err(stop) => Err(layout_stop(stop)),
    }
}
