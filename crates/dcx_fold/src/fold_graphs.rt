//! The graph of a fold: the rows of each group, its unknowns, and its results.
ghost use Rattle.std.specs.Prelude.{◌≡◌, ◌<◌, ◌+◌, ◌*◌, ◌++◌, ◌^◌, [], ◌∷◌, map, replicate, OnOk, IfOk};
ghost use Rattle.dcx_shape.specs.Shape.{sides_of};
ghost use Rattle.dcx_shape.specs.Sides.{entries_of};
ghost use Rattle.dcx_atom.specs.Arrays.{list_below};
ghost use Rattle.dcx_atom.specs.Axis.{folded_count};
ghost use Rattle.dcx_atom.specs.Graph.{form_term, placed_row, rows_below};
ghost use Rattle.dcx_fold.specs.Groups.{groups};
ghost use Rattle.dcx_frac.specs.Frac.{value};
ghost use Rattle.dcx_atom.specs.declared.axis.Axis.{Axis};
ghost use Rattle.dcx_atom.specs.Bounding.{argument_term, bound_row};
ghost use Rattle.dcx_fold.specs.Folds.{fold_bend, fold_kind, unknown_of, unknowns, rows_of_member, group_rows, unknowns_form, group_form};

use crate::folding::{Fold, Folding};
use dcx_atom::{
    AuxTerm, Graph, GraphForm, GraphForms, GraphRow, GraphRows, GraphTerm, Operand, bounding_row,
    each_alone, minus_one, of_kind,
};
use dcx_frac::Frac;
use dcx_shape::Shape;
use std::alloc::{AllocError, Global};

/// The row that puts the unknown beyond so many times the entry at `place`.
fn member_row(
    alloc: Global,
    fold: Fold,
    entry: u32,
    unknown: u32,
    place: u32,
    coefficient: Frac,
) -> Result<GraphRow, AllocError>
    ensures { IfOk result (λ r. placed_row r ≡ record { entry = entry; row = bound_row (fold_bend fold) unknown (argument_term 0 place (value coefficient)) }) }
{
    let term = GraphTerm {
        operand: Operand::Argument {
            argument: 0,
            entry: place,
        },
        coefficient,
    };
    bounding_row(alloc, fold.bend(), entry, unknown, term)
}

/// Adds that row.
fn push_member_row(
    alloc: Global,
    rows: &mut Vec<GraphRow>,
    fold: Fold,
    entry: u32,
    unknown: u32,
    place: u32,
    coefficient: Frac,
) -> Result<(), AllocError>
    ensures { OnOk result (map placed_row rows.new.items
        ≡ map placed_row rows.old.items ++ record { entry = entry; row = bound_row (fold_bend fold) unknown (argument_term 0 place (value coefficient)) } ∷ []) }
{
    rows.push(member_row(alloc, fold, entry, unknown, place, coefficient)?)?;
    Ok(())
}

/// Adds the rows of the member at `place` of group `entry`.
fn push_member_rows(
    alloc: Global,
    rows: &mut Vec<GraphRow>,
    fold: Fold,
    entry: u32,
    unknown: u32,
    place: u32,
) -> Result<(), AllocError>
    ensures { OnOk result (map placed_row rows.new.items ≡ map placed_row rows.old.items ++ map (λ row. record { entry = entry; row = row }) (rows_of_member fold unknown place)) }
{
    push_member_row(alloc, rows, fold, entry, unknown, place, Frac::one())?;
    match fold {
        Fold::Max => Ok(()),
        Fold::Min => Ok(()),
        Fold::Norm1 => push_member_row(alloc, rows, fold, entry, unknown, place, minus_one()),
        Fold::NormInf => push_member_row(alloc, rows, fold, entry, unknown, place, minus_one()),
    }
}

/// The unknown beyond member `i` of group `k` of `count` members.
fn unknown(fold: Fold, count: u32, k: u32, i: u32) -> u32
    requires { k * count + i < 2 ^ 32 }
    ensures { result ≡ unknown_of fold count k i }
{
    match fold {
        Fold::Max => k,
        Fold::Min => k,
        Fold::Norm1 => k * count + i,
        Fold::NormInf => k,
    }
}

/// Adds the rows of group `entry`.
fn push_group_rows(
    alloc: Global,
    rows: &mut Vec<GraphRow>,
    folding: Folding,
    from: Shape,
    entry: u32,
) -> Result<(), AllocError>
    requires { entry < groups folding.axis (sides_of from) }
    ensures { OnOk result (map placed_row rows.new.items
        ≡ map placed_row rows.old.items ++ map (λ row. record { entry = entry; row = row }) (group_rows folding.fold folding.axis (sides_of from) entry)) }
{
    let stride = folding.axis.stride(from, entry);
    let count = folding.axis.folded_count(from);
    for i in 0..count {
        let unknown = unknown(folding.fold, count, entry, i);
        let place = stride.first + i * stride.step;
        push_member_rows(alloc, rows, folding.fold, entry, unknown, place)?;
    }
    Ok(())
}

/// The sum of `count` unknowns from `first` on.
fn run_of_unknowns(alloc: Global, first: u32, count: u32) -> Result<GraphForm, AllocError>
    requires { first + count < 2 ^ 32 }
    ensures { IfOk result (λ f. map form_term f ≡ unknowns_form count first) }
{
    let mut terms = Vec::new(alloc);
    for i in 0..count {
        terms.push(AuxTerm {
            aux: first + i,
            coefficient: Frac::one(),
        })?;
    }
    Ok(GraphForm::from_vec(terms))
}

/// For each of `size` groups the sum of its `count` unknowns.
fn runs_of_unknowns(alloc: Global, size: u32, count: u32) -> Result<GraphForms, AllocError>
    requires { size * count < 2 ^ 32 }
    ensures { IfOk result (λ f. map (map form_term) f ≡ list_below size (λ k. unknowns_form count (k * count))) }
{
    let mut forms = Vec::new(alloc);
    for k in 0..size {
        forms.push(run_of_unknowns(alloc, k * count, count)?)?;
    }
    Ok(GraphForms::from_vec(forms))
}

/// The form of each group.
fn group_forms(alloc: Global, fold: Fold, size: u32, count: u32) -> Result<GraphForms, AllocError>
    requires { size * count < 2 ^ 32 }
    ensures { IfOk result (λ f. map (map form_term) f ≡ list_below size (group_form fold count)) }
{
    match fold {
        Fold::Max => each_alone(alloc, size),
        Fold::Min => each_alone(alloc, size),
        Fold::Norm1 => runs_of_unknowns(alloc, size, count),
        Fold::NormInf => each_alone(alloc, size),
    }
}

/// How many unknowns there are.
fn count_unknowns(fold: Fold, from: Shape, size: u32) -> u32
    ensures { (axis : Axis) → size ≡ groups axis (sides_of from) → result ≡ unknowns fold axis (sides_of from) }
{
    match fold {
        Fold::Max => size,
        Fold::Min => size,
        Fold::Norm1 => from.size(),
        Fold::NormInf => size,
    }
}

/// The rows of all groups, of which there are `size`.
fn fold_rows(
    alloc: Global,
    folding: Folding,
    from: Shape,
    size: u32,
) -> Result<GraphRows, AllocError>
    requires { size ≡ groups folding.axis (sides_of from) }
    ensures { IfOk result (λ g. map placed_row g ≡ rows_below size (group_rows folding.fold folding.axis (sides_of from))) }
{
    let mut rows = Vec::new(alloc);
    for entry in 0..size {
        push_group_rows(alloc, &mut rows, folding, from, entry)?;
    }
    Ok(GraphRows::from_vec(rows))
}

/// The graph at an argument of this shape, whose `size` groups each become one entry.
pub(crate) fn fold_graph(
    alloc: Global,
    folding: Folding,
    from: Shape,
    size: u32,
) -> Result<Graph, AllocError>
    requires { size ≡ groups folding.axis (sides_of from) }
    ensures kinds { IfOk result (λ g. g.aux ≡ replicate (unknowns folding.fold folding.axis (sides_of from)) (fold_kind folding.fold)) }
    ensures rows { IfOk result (λ g. map placed_row g.rows ≡ rows_below size (group_rows folding.fold folding.axis (sides_of from))) }
    ensures results { IfOk result (λ g. map (map form_term) g.results ≡ list_below size (group_form folding.fold (folded_count folding.axis (sides_of from)))) }
{
    let unknowns = count_unknowns(folding.fold, from, size);
    let aux = of_kind(alloc, folding.fold.kind(), unknowns)?;
    let count = folding.axis.folded_count(from);
    let results = group_forms(alloc, folding.fold, size, count)?;
    let rows = fold_rows(alloc, folding, from, size)?;
    Ok(Graph { aux, rows, results })
}
