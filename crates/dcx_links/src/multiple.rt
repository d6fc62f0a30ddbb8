//! A multiple of listed numbers, taken from a row.
ghost use Rattle.std.specs.Prelude.{◌≡◌, ◌≢◌, ℕ, ◌<◌, ◌≤◌, ◌^◌, length, ◌-ℤ◌, ◌*ℤ◌, unsigned_abs};
ghost use Rattle.dcx_links.specs.Cells.{number_in, IsSound};
ghost use Rattle.dcx_links.specs.Entries.{column_at, value_at};

use crate::reserve::make_free;
use crate::search::{Spot, row_spot_on};
use crate::store::Store;
use crate::walk::Entry;
use crate::write::lessen;

/// Takes a multiple of the first entries of a list, whose columns rise, from the numbers of a row. The row is passed once, and each column
/// is looked through from the cell that is kept for it.
pub(crate) fn lessen_by(
    store: &mut Store,
    near: &mut [u32],
    row: u32,
    by: i128,
    entries: &[Entry],
    count: usize,
)
    requires sound { IsSound store.old }
    requires near { length near.old ≡ length store.old.column_heads.items }
    requires row { row < length store.old.row_heads.items }
    requires count { count ≤ length entries.now }
    requires within { (k : ℕ) → k < count → column_at entries.now k < length store.old.column_heads.items }
    requires rising { (j k : ℕ) → j < k → k < count → column_at entries.now j < column_at entries.now k }
    requires product { (k : ℕ) → k < count → unsigned_abs (by *ℤ value_at entries.now k) < 2 ^ 127 }
    requires fits { (k : ℕ) → k < count → unsigned_abs (number_in store.old row (column_at entries.now k) -ℤ by *ℤ value_at entries.now k) < 2 ^ 127 }
    ensures sound { IsSound store.new }
    ensures rows { length store.new.row_heads.items ≡ length store.old.row_heads.items }
    ensures columns { length store.new.column_heads.items ≡ length store.old.column_heads.items }
    ensures there { (k : ℕ) → k < count → number_in store.new row (column_at entries.now k) ≡ number_in store.old row (column_at entries.now k) -ℤ by *ℤ value_at entries.now k }
    ensures same { (r c : ℕ) → (r ≡ row → (k : ℕ) → k < count → c ≢ column_at entries.now k) → number_in store.new r c ≡ number_in store.old r c }
{
    make_free(store);
    let mut spot = Spot {
        from: None,
        link: store.row_heads[row as usize],
    };
    'entries: for k in 0..count {
        let entry = entries[k];
        let at = entry.at as usize;
        let in_row = row_spot_on(&store.cells, &store.row_heads, row, entry.at, spot);
        let passed = lessen(store, row, entry.at, by * entry.value, in_row, near[at]);
        near[at] = passed.near;
        spot = passed.spot;
    }
}
