//! The columns that are kept after an answer.
ghost use Rattle.std.specs.Prelude.{◌≡◌, None, Some, IfOk, OnOk, OnErr};
ghost use Rattle.dcx_chained.specs.Tables.{table_of};
ghost use Rattle.dcx_cache.specs.Columns.{basic_columns, columns_after, kept_or, HoldsApart};
ghost use Rattle.dcx_simplex.specs.Readable.{IsReadable};

use crate::session::Last;
use dcx_answer::Answer;
use dcx_chained::Chained;
use dcx_tab::Tableau;
use dcx_warm::Columns;
use std::alloc::{AllocError, Global};

/// The basic columns of the rows.
fn basic_columns(alloc: Global, tableau: &Chained) -> Result<Columns, AllocError>
    ensures { IfOk result (λ c. c ≡ basic_columns (table_of tableau.now)) }
{
    let mut basics = Vec::with_capacity(alloc, tableau.rows() as usize)?;
    'rows: for row in 0..tableau.rows() {
        basics.push(tableau.basis(row))?;
    }
    Ok(Columns::from_vec(basics))
}

/// The columns to be kept anew after an answer that was read at a tableau: those that are basic there, where it is optimal.
fn new_columns(
    alloc: Global,
    answer: &Answer,
    tableau: &Chained,
) -> Result<Option<Columns>, AllocError>
    ensures { IfOk result (λ c. c ≡ columns_after None answer.now (table_of tableau.now)) }
{
    match answer {
        Answer::Optimal { .. } => Ok(Some(basic_columns(alloc, tableau)?)),
        Answer::Infeasible { .. } | Answer::Unbounded { .. } => Ok(None),
    }
}

/// Puts columns that are to be kept anew in the place of those that were kept.
fn renew(columns: &mut Option<Columns>, anew: Option<Columns>)
    ensures { columns.new ≡ kept_or anew columns.old }
{
    if let Some(anew) = anew {
        *columns = Some(anew);
    }
}

/// Keeps how an answer was found, and of an optimal one the basic columns.
pub(crate) fn keep(
    alloc: Global,
    answer: &Answer,
    found: Last,
    last: &mut Option<Last>,
    columns: &mut Option<Columns>,
) -> Result<(), AllocError>
    requires { IsReadable (table_of found.solved.tableau) }
    ensures last { OnOk result (last.new ≡ Some found) }
    ensures columns { OnOk result (columns.new ≡ columns_after columns.old answer.now (table_of found.solved.tableau)) }
    ensures apart { HoldsApart columns.old → HoldsApart columns.new }
    ensures none { OnErr result ((last.new ≡ last.old) × (columns.new ≡ columns.old)) }
{
    let anew = match new_columns(alloc, answer, &found.solved.tableau) {
        Ok(anew) => anew,
        Err(_) => {
            drop(found);
            return Err(AllocError);
        }
    };
    renew(columns, anew);
    drop(last.replace(found));
    Ok(())
}
