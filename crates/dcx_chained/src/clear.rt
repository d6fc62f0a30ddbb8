//! The rows of a pivot.
ghost use Rattle.std.specs.Prelude.{◌≡◌, ◌≢◌, ℕ, ◌<◌, ◌≤◌, length, pos, ◌-ℤ◌, ◌*ℤ◌, unsigned_abs, true, IfSome, IfNone};
ghost use Rattle.dcx_tab.specs.Rows.{entry, AllSmall};
ghost use Rattle.dcx_tab.specs.Pivot.{turned, eliminated, IsRowFormed};
ghost use Rattle.dcx_links.specs.Matrix.{row_of};
ghost use Rattle.dcx_chained.specs.NewRow.{AreListed, Clears};
ghost use Rattle.dcx_chained.specs.Narrow.{AreSized};

use crate::factors::factors_of;
use crate::mix::{list_row, mix_row};
use crate::narrow::{resize, size_of};
use crate::reduce::reduce_row;
use dcx_links::{Entry, Links};
use dcx_tab::Factors;

/// Clears row `i` at the column of a pivot at row `r`, whose numbers are listed, by these factors.
fn clear_row(
    links: &mut Links,
    i: u32,
    r: u32,
    column: u32,
    factors: Factors,
    entries: &[Entry],
    count: usize,
)
    requires row { i < links.old.height }
    requires some { entry (row_of links.old r) column ≢ pos 0 }
    requires met { entry (row_of links.old i) column ≢ pos 0 }
    requires factors { Clears column (row_of links.old r) (row_of links.old i) factors.row factors.by }
    requires factor { factors.row ≢ pos 0 }
    requires count { count ≤ length entries.now }
    requires listed { AreListed (row_of links.old r) links.old.width entries.now count }
    requires formed { IsRowFormed column (turned column (row_of links.old r)) (row_of links.old i) }
    ensures row { row_of links.new i ≡ eliminated column (turned column (row_of links.old r)) (row_of links.old i) }
    ensures bounded { (j : ℕ) → unsigned_abs (entry (row_of links.new i) j) ≤ unsigned_abs (factors.row *ℤ entry (row_of links.old i) j -ℤ factors.by *ℤ entry (row_of links.old r) j) }
    ensures same { (k : ℕ) → k ≢ i → row_of links.new k ≡ row_of links.old k }
    ensures height { links.new.height ≡ links.old.height }
    ensures width { links.new.width ≡ links.old.width }
{
    mix_row(links, i, r, factors, entries, count);
    reduce_row(links, i);
}

/// The first number of a column in a row other than row `r`.
fn other_row(links: &Links, r: u32, column: u32) -> Option<Entry>
    requires { column < links.now.width }
    ensures below { IfSome result (λ e. e.at < links.now.height) }
    ensures other { IfSome result (λ e. e.at ≢ r) }
    ensures met { IfSome result (λ e. entry (row_of links.now e.at) column ≡ e.value) }
    ensures some { IfSome result (λ e. e.value ≢ pos 0) }
    ensures none { IfNone result ((i : ℕ) → i < links.now.height → i ≢ r → entry (row_of links.now i) column ≡ pos 0) }
{
    let mut walk = links.column(column);
    let first = walk.next()?;
    if first.at != r {
        return Some(first);
    }
    let second = walk.next()?;
    Some(second)
}

/// Clears all rows but row `r` at the column of a pivot at row `r`. Where all rows were narrow by their sizes, answers whether they still are.
pub(crate) fn clear_rows(
    links: &mut Links,
    r: u32,
    column: u32,
    entries: &mut [Entry],
    sizes: &mut [u64],
    were_narrow: bool,
) -> bool
    requires pivot_row { r < links.old.height }
    requires column { column < links.old.width }
    requires some { entry (row_of links.old r) column ≢ pos 0 }
    requires small { (k : ℕ) → k < links.old.height → AllSmall (row_of links.old k) }
    requires room { links.old.width ≤ length entries.old }
    requires sizes { links.old.height ≤ length sizes.old }
    requires narrow { were_narrow ≡ true → AreSized links.old.height sizes.old links.old }
    requires formed { (i : ℕ) → i < links.old.height → i ≢ r → IsRowFormed column (turned column (row_of links.old r)) (row_of links.old i) }
    ensures rows { (i : ℕ) → i < links.old.height → i ≢ r → row_of links.new i ≡ eliminated column (turned column (row_of links.old r)) (row_of links.old i) }
    ensures narrow { result ≡ true → AreSized links.old.height sizes.new links.new }
    ensures same { row_of links.new r ≡ row_of links.old r }
    ensures height { links.new.height ≡ links.old.height }
    ensures width { links.new.width ≡ links.old.width }
{
    let pivot = links.get(r, column);
    let pivot_size = size_of(links, r);
    let count = list_row(links, r, entries);
    let mut are_narrow = were_narrow;
    'rows: while let Some(met) = other_row(links, r, column) {
        let factors = factors_of(pivot, met.value);
        clear_row(links, met.at, r, column, factors, entries, count);
        are_narrow = resize(links, met.at, factors, pivot_size, sizes, are_narrow);
    }
    are_narrow
}

/// Negates row `r` where its number in a column is negative.
pub(crate) fn turn_row(links: &mut Links, r: u32, column: u32)
    requires row { r < links.old.height }
    requires column { column < links.old.width }
    requires small { AllSmall (row_of links.old r) }
    ensures row { row_of links.new r ≡ turned column (row_of links.old r) }
    ensures same { (k : ℕ) → k ≢ r → row_of links.new k ≡ row_of links.old k }
    ensures height { links.new.height ≡ links.old.height }
    ensures width { links.new.width ≡ links.old.width }
{
    if links.get(r, column) < 0 {
        links.multiply(r, -1);
    }
}
