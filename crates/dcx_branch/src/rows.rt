//! The rows of a node.
ghost use Rattle.std.specs.Prelude.{◌≡◌, ◌<◌, ◌++◌, length, pos, IfOk, OnOk};
ghost use Rattle.std.specs.List.{All};
ghost use Rattle.dcx_math.specs.Rational.{whole};
ghost use Rattle.dcx_frac.specs.Fits.{Fits};
ghost use Rattle.dcx_frac.specs.Frac.{value};
ghost use Rattle.dcx_std.specs.GivenRows.{given};
ghost use Rattle.dcx_branch.specs.Rows.{unit_row, bound_row as row_of, bound_rows};

use crate::bound::BoundAt;
use dcx_frac::Frac;
use dcx_linear::{Form, FormTerm, FormTerms, Row, RowKind, RowList, Rows, UnknownKinds};
use std::alloc::{AllocError, Global};

/// An integer as a fraction.
fn integer(number: i128) -> Frac
    requires { Fits number }
    ensures { value result ≡ whole number }
{
    match Frac::of(number, 1) {
        Some(fraction) => fraction,
        None => unreachable!(),
    }
}

/// The row that says that a multiple of an unknown and a number are at most 0.
fn unit_row(
    alloc: Global,
    coefficient: Frac,
    unknown: u32,
    constant: Frac,
) -> Result<Row<Frac>, AllocError>
    requires { ¬ (value coefficient ≡ whole (pos 0)) }
    ensures { IfOk result (λ r. r ≡ unit_row (value coefficient) unknown (value constant)) }
{
    let mut terms = Vec::new(alloc);
    terms.push(FormTerm {
        unknown,
        coefficient,
    })?;
    Ok(Row {
        kind: RowKind::AtMost,
        form: Form {
            constant,
            terms: FormTerms::from_vec(terms),
        },
    })
}

/// The row of a bound.
fn bound_row(alloc: Global, bound: &BoundAt) -> Result<Row<Frac>, AllocError>
    requires { Fits bound.now.limit }
    ensures { IfOk result (λ r. r ≡ row_of bound.now) }
{
    let limit = integer(bound.limit);
    let unknown = bound.place.unknown;
    if bound.upper {
        unit_row(alloc, Frac::one(), unknown, limit.neg())
    } else {
        unit_row(alloc, Frac::one().neg(), unknown, limit)
    }
}

/// Adds copies of rows.
fn push_rows(alloc: Global, rows: &mut Vec<Row<Frac>>, from: &[Row<Frac>]) -> Result<(), AllocError>
    ensures { OnOk result (rows.new.items ≡ rows.old.items ++ from.now) }
{
    'rows: for row in from {
        let form = row.form.copy(alloc)?;
        rows.push(Row {
            kind: row.kind,
            form,
        })?;
    }
    Ok(())
}

/// Adds the rows of bounds.
fn push_bounds(
    alloc: Global,
    rows: &mut Vec<Row<Frac>>,
    bounds: &[BoundAt],
) -> Result<(), AllocError>
    requires { All (λ b. Fits b.limit) bounds.now }
    ensures { OnOk result (rows.new.items ≡ rows.old.items ++ bound_rows bounds.now) }
{
    'bounds: for bound in bounds {
        rows.push(bound_row(alloc, bound)?)?;
    }
    Ok(())
}

/// Adds copies of rows, and then the rows of bounds.
fn push_all(
    alloc: Global,
    rows: &mut Vec<Row<Frac>>,
    from: &[Row<Frac>],
    bounds: &[BoundAt],
) -> Result<(), AllocError>
    requires { All (λ b. Fits b.limit) bounds.now }
    ensures { OnOk result (rows.new.items ≡ (rows.old.items ++ from.now) ++ bound_rows bounds.now) }
{
    push_rows(alloc, rows, from)?;
    push_bounds(alloc, rows, bounds)
}

/// What is to be small and the kinds of the unknowns, again.
fn objective_and_kinds(
    alloc: Global,
    rows: &Rows<Frac>,
) -> Result<(Form<Frac>, UnknownKinds), AllocError>
    ensures { IfOk result (λ r. (r.0 ≡ rows.now.objective) × (r.1 ≡ rows.now.kinds)) }
{
    let kinds = Vec::from_slice(alloc, rows.kinds.as_slice())?;
    let objective = rows.objective.copy(alloc)?;
    Ok((objective, UnknownKinds::from_vec(kinds)))
}

/// The rows of a node: those of the program, and after them one for each bound.
pub(crate) fn node_rows(
    alloc: Global,
    rows: &Rows<Frac>,
    bounds: &[BoundAt],
) -> Result<Rows<Frac>, AllocError>
    requires fit { All (λ b. Fits b.limit) bounds.now }
    requires known { All (λ b. b.place.unknown < length rows.now.kinds) bounds.now }
    ensures { IfOk result (λ r. given r.kinds r.rows r.objective ≡ given rows.now.kinds (rows.now.rows ++ bound_rows bounds.now) rows.now.objective) }
{
    let both = objective_and_kinds(alloc, rows)?;
    let mut all = Vec::new(alloc);
    match push_all(alloc, &mut all, rows.rows.as_slice(), bounds) {
        Ok(()) => {
            let (objective, kinds) = both;
            Ok(Rows {
                rows: RowList::from_vec(all),
                objective,
                kinds,
            })
        }
        Err(stop) => {
            drop((all, both));
            Err(stop)
        }
    }
}
