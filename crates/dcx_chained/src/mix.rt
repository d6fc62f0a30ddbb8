//! Multiples of rows, added up in their cells.
ghost use Rattle.std.specs.Prelude.{◌≡◌, ◌≢◌, ℕ, ◌<◌, ◌≤◌, ◌^◌, length, pos, ◌*ℤ◌, unsigned_abs};
ghost use Rattle.dcx_tab.specs.Rows.{entry};
ghost use Rattle.dcx_tab.specs.Pivot.{IsFormed};
ghost use Rattle.dcx_links.specs.Matrix.{number_at, row_of};
ghost use Rattle.dcx_chained.specs.NewRow.{AreListed, mixed_at};

use dcx_links::{Entry, Links};
use dcx_tab::Factors;

/// Puts the numbers of row `r` into a list. Answers how many there are.
pub(crate) fn list_row(links: &Links, r: u32, to: &mut [Entry]) -> usize
    requires row { r < links.now.height }
    requires room { links.now.width ≤ length to.old }
    ensures count { result ≤ length to.new }
    ensures listed { AreListed (row_of links.now r) links.now.width to.new result }
{
    let mut walk = links.row(r);
    let mut count = 0;
    'numbers: while let Some(entry) = walk.next() {
        to[count] = entry;
        count += 1;
    }
    count
}

/// Multiplies the numbers of row `i`.
fn scale_row(links: &mut Links, i: u32, by: i128)
    requires row { i < links.old.height }
    requires some { by ≢ pos 0 }
    requires fits { (k : ℕ) → k < links.old.width → unsigned_abs (by *ℤ number_at links.old i k) < 2 ^ 127 }
    ensures there { (k : ℕ) → number_at links.new i k ≡ by *ℤ number_at links.old i k }
    ensures same { (r c : ℕ) → r ≢ i → number_at links.new r c ≡ number_at links.old r c }
    ensures height { links.new.height ≡ links.old.height }
    ensures width { links.new.width ≡ links.old.width }
{
    if by != 1 {
        links.multiply(i, by);
    }
}

/// Puts the one factor times row `i` less the other times row `r`, whose numbers are listed, in the place of row `i`.
pub(crate) fn mix_row(
    links: &mut Links,
    i: u32,
    r: u32,
    factors: Factors,
    entries: &[Entry],
    count: usize,
)
    requires row { i < links.old.height }
    requires count { count ≤ length entries.now }
    requires listed { AreListed (row_of links.old r) links.old.width entries.now count }
    requires some { factors.row ≢ pos 0 }
    requires formed { (k : ℕ) → k < links.old.width → IsFormed factors.row (entry (row_of links.old i) k) factors.by (entry (row_of links.old r) k) }
    ensures mixed { (k : ℕ) → k < links.old.width → number_at links.new i k ≡ mixed_at factors.row (row_of links.old i) factors.by (row_of links.old r) k }
    ensures same { (k c : ℕ) → k ≢ i → number_at links.new k c ≡ number_at links.old k c }
    ensures height { links.new.height ≡ links.old.height }
    ensures width { links.new.width ≡ links.old.width }
{
    scale_row(links, i, factors.row);
    links.subtract(i, factors.by, entries, count);
}
