//! Making listed columns basic.
ghost use Rattle.std.specs.Prelude.{ℕ, ◌+◌, ◌<◌, length, IsTrue, ◌↔◌, IfSome, IfNone};
ghost use Rattle.std.specs.Bool.{OnTrue, OnFalse};
ghost use Rattle.dcx_simplex.specs.Basis.{IsBasic};
ghost use Rattle.dcx_warm.specs.Install.{IsSound, IsListed, MayGive, IsGiving, Installs, NeverInstalls};

use crate::step::step;
use dcx_tab::Tableau;

/// Whether the column stands in the list.
fn is_listed(columns: &[u32], column: u32) -> bool
    ensures { IsTrue result ↔ IsListed columns.now column }
{
    'columns: for listed in columns {
        if *listed == column {
            return true;
        }
    }
    false
}

/// Whether the column is basic.
fn is_basic<T: Tableau>(tableau: &T, column: u32) -> bool
    ensures { IsTrue result ↔ IsBasic (T.table tableau.now) column }
{
    'rows: for i in 0..tableau.rows() {
        if tableau.basis(i) == column {
            return true;
        }
    }
    false
}

/// Whether row `i` may give up its basic column for `column`.
fn may_give<T: Tableau>(tableau: &T, columns: &[u32], column: u32, i: u32) -> bool
    requires row { i + 2 < length (T.table tableau.now).rows }
    requires column { column < (T.table tableau.now).columns }
    ensures { IsTrue result ↔ MayGive columns.now (T.table tableau.now) column i }
{
    tableau.entry(i, column) != 0 && !is_listed(columns, tableau.basis(i))
}

/// The first row that may give up its basic column for `column`.
fn giving<T: Tableau>(tableau: &T, columns: &[u32], column: u32) -> Option<u32>
    requires { column < (T.table tableau.now).columns }
    ensures found { IfSome result (λ r. IsGiving columns.now (T.table tableau.now) column r) }
    ensures none { IfNone result ((r : ℕ) → ¬ (IsGiving columns.now (T.table tableau.now) column r)) }
{
    'rows: for i in 0..tableau.rows() {
        if may_give(tableau, columns, column, i) {
            return Some(i);
        }
    }
    None
}

/// Makes the listed columns basic, columns rising, and tells whether it could.
pub(crate) fn install<T: Tableau>(
    tableau: &mut T,
    columns: &[u32],
    limit: u64,
    pivots: &mut u64,
) -> bool
    requires sound { IsSound (T.table tableau.old) }
    requires below { (c : ℕ) → IsListed columns.now c → c < (T.table tableau.old).plain }
    ensures installs { OnTrue result (Installs columns.now limit (T.table tableau.new) pivots.new (T.table tableau.old) pivots.old) }
    ensures none { OnFalse result (NeverInstalls columns.now limit (T.table tableau.old) pivots.old) }
{
    'columns: for column in 0..tableau.plain() {
        if !is_listed(columns, column) {
            continue;
        }
        if is_basic(tableau, column) {
            continue;
        }
        let Some(row) = giving(tableau, columns, column) else {
            return false;
        };
        if !step(tableau, row, column, limit, pivots) {
            return false;
        }
    }
    true
}
