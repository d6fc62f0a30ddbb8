//! Rows that put one unknown beyond some terms, tests of the sum of their weights, and a shape of one argument: what the
//! code of nonlinear calls shares.
ghost use Rattle.std.specs.Prelude.{◌≡◌, ◌+◌, ◌*◌, ◌≤◌, IfOk, option_map, map, replicate, take, drop, length};
ghost use Rattle.std.specs.Result.{result_err};
ghost use Rattle.dcx_math.specs.Rational.{rat_abs, rat_max, rat_min};
ghost use Rattle.dcx_frac.specs.Frac.{value};
ghost use Rattle.dcx_shape.specs.Shape.{sides_of};
ghost use Rattle.dcx_atom.specs.Arrays.{sides_list, list_below};
ghost use Rattle.dcx_atom.specs.Graph.{row_term, form_term, placed_row};
ghost use Rattle.dcx_atom.specs.Steps.{test, step_stop, first_stop};
ghost use Rattle.dcx_atom.specs.Bounding.{bound_row, outward, unknown_form, only, total_condition, total_steps};
ghost use Rattle.dcx_atom.specs.Farthest.{farther};

use crate::flags::Bend;
use crate::forming::{check_at_most, check_equal, check_weights, is_at_most, minus_one, sum_all};
use crate::graph::{
    AuxKind, AuxKinds, AuxTerm, GraphForm, GraphForms, GraphRow, GraphTerm, GraphTerms, Operand,
};
use crate::stops::SlopeStop;
use dcx_frac::Frac;
use dcx_shape::Shape;
use std::alloc::{AllocError, Global};

/// The greater of two numbers.
#[tactic(auto, unfolding(dcx_math::specs::Rational::rat_max))]
pub fn greater(x: Frac, y: Frac) -> Frac
    ensures { value result ≡ rat_max (value x) (value y) }
{
    if is_at_most(&x, &y) { y } else { x }
}

/// The lesser of two numbers.
#[tactic(auto, unfolding(dcx_math::specs::Rational::rat_min))]
pub fn lesser(x: Frac, y: Frac) -> Frac
    ensures { value result ≡ rat_min (value x) (value y) }
{
    if is_at_most(&x, &y) { x } else { y }
}

/// The magnitude of a number.
#[tactic(auto, unfolding(dcx_math::specs::Rational::rat_abs))]
pub fn magnitude(x: Frac) -> Frac
    ensures { value result ≡ rat_abs (value x) }
{
    greater(x, x.neg())
}

/// The shape of the only argument.
pub fn only_shape(args: &[Shape]) -> Option<Shape>
    ensures { option_map sides_of result ≡ only (sides_list args.now) }
{
    match args {
        [shape] => Some(*shape),
        _ => None,
    }
}

/// The number as a convex call counts it, with its sign turned for a concave one.
pub fn outward_of(bend: Bend, x: Frac) -> Frac
    ensures { value result ≡ outward bend (value x) }
{
    match bend {
        Bend::Convex => x,
        Bend::Concave => x.neg(),
    }
}

/// The greater of two numbers, or the lesser for a concave call.
pub fn farther_of(bend: Bend, x: Frac, y: Frac) -> Frac
    ensures { value result ≡ farther bend (value x) (value y) }
{
    match bend {
        Bend::Convex => greater(x, y),
        Bend::Concave => lesser(x, y),
    }
}

/// The row of an entry that holds where the unknown is beyond the term.
pub fn bounding_row(
    alloc: Global,
    bend: Bend,
    entry: u32,
    unknown: u32,
    term: GraphTerm,
) -> Result<GraphRow, AllocError>
    ensures { IfOk result (λ r. placed_row r ≡ record { entry = entry; row = bound_row bend unknown (row_term term) }) }
{
    let terms = match bend {
        Bend::Convex => vec![in alloc;
            term,
            GraphTerm {
                operand: Operand::Aux(unknown),
                coefficient: minus_one(),
            },
        ]?,
        Bend::Concave => vec![in alloc;
            GraphTerm {
                operand: Operand::Aux(unknown),
                coefficient: Frac::one(),
            },
            GraphTerm {
                operand: term.operand,
                coefficient: term.coefficient.neg(),
            },
        ]?,
    };
    Ok(GraphRow {
        entry,
        terms: GraphTerms::from_vec(terms),
    })
}

/// The form of one unknown alone.
fn alone(alloc: Global, unknown: u32) -> Result<GraphForm, AllocError>
    ensures { IfOk result (λ f. map form_term f ≡ unknown_form unknown) }
{
    let terms = vec![in alloc;
        AuxTerm {
            aux: unknown,
            coefficient: Frac::one(),
        },
    ]?;
    Ok(GraphForm::from_vec(terms))
}

/// The forms of the first so many unknowns, each alone.
pub fn each_alone(alloc: Global, size: u32) -> Result<GraphForms, AllocError>
    ensures { IfOk result (λ f. map (map form_term) f ≡ list_below size unknown_form) }
{
    let mut forms = Vec::new(alloc);
    for unknown in 0..size {
        forms.push(alone(alloc, unknown)?)?;
    }
    Ok(GraphForms::from_vec(forms))
}

/// So many unknowns of one kind.
pub fn of_kind(alloc: Global, kind: AuxKind, size: u32) -> Result<AuxKinds, AllocError>
    ensures { IfOk result (λ kinds. kinds ≡ replicate size kind) }
{
    let mut kinds = Vec::new(alloc);
    for _unknown in 0..size {
        kinds.push(kind)?;
    }
    Ok(AuxKinds::from_vec(kinds))
}

/// `Refused` where the weights don't sum to at most `coefficient` for an unknown of at least 0, or to `coefficient` for a
/// free one; `Passes` where their sum passes 128 bits.
pub fn check_sum(
    entry: u32,
    kind: AuxKind,
    coefficient: Frac,
    weights: &[Frac],
) -> Result<(), SlopeStop>
    ensures { result_err result ≡ step_stop entry (test (total_condition kind (value coefficient) (map value weights.now))) }
{
    match sum_all(weights) {
        Err(passes) => Err(SlopeStop::Passes(passes)),
        Ok(sum) => {
            match kind {
                AuxKind::Nonneg => check_at_most(entry, sum, coefficient),
                AuxKind::Free => check_equal(entry, sum, coefficient),
            }
        }
    }
}

/// `Refused` at the first weight that isn't at least 0, and then as `check_sum`.
pub fn check_total(
    entry: u32,
    kind: AuxKind,
    coefficient: Frac,
    weights: &[Frac],
) -> Result<(), SlopeStop>
    ensures { result_err result ≡ first_stop entry (total_steps kind (value coefficient) (map value weights.now)) }
{
    check_weights(entry, weights)?;
    check_sum(entry, kind, coefficient, weights)
}

/// The weights of the rows of an entry, of which each has so many.
pub fn row_weights(weights: &[Frac], entry: usize, rows: usize) -> &[Frac]
    requires { entry * rows + rows ≤ length weights.now }
    ensures { result.now ≡ take rows (drop (entry * rows) weights.now) }
{
    let start = entry * rows;
    &weights[start..start + rows]
}
