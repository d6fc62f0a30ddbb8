//! All numbers of a row, changed in their cells.
ghost use Rattle.std.specs.Prelude.{◌≡◌, ◌≢◌, ℕ, ◌<◌, ◌^◌, length, pos, ◌*ℤ◌, ◌<ℤ◌, unsigned_abs};
ghost use Prim.Native.Nat.{◌∣◌};
ghost use Rattle.dcx_math.specs.Divisors.{divided};
ghost use Rattle.dcx_links.specs.Cells.{number_in, IsSound};

use crate::store::{NONE, Store};
use crate::write::change_at;

/// The greatest number of one machine word with a sign.
const WORD: i128 = i64::MAX as i128;

/// The quotient by a divisor, cut off towards 0. It is formed in one machine word where the numbers fit: in two it takes several times as long.
pub fn quotient(value: i128, divisor: i128) -> i128
    requires { pos 0 <ℤ divisor }
    ensures { result ≡ divided (unsigned_abs divisor) value }
{
    if -WORD <= value && value <= WORD && divisor <= WORD {
        (value as i64 / divisor as i64) as i128
    } else {
        value / divisor
    }
}

/// Multiplies the numbers of a row by a factor other than 0.
pub(crate) fn multiply_row(store: &mut Store, row: u32, by: i128)
    requires sound { IsSound store.old }
    requires row { row < length store.old.row_heads.items }
    requires some { by ≢ pos 0 }
    requires fits { (c : ℕ) → c < length store.old.column_heads.items → unsigned_abs (by *ℤ number_in store.old row c) < 2 ^ 127 }
    ensures sound { IsSound store.new }
    ensures rows { length store.new.row_heads.items ≡ length store.old.row_heads.items }
    ensures columns { length store.new.column_heads.items ≡ length store.old.column_heads.items }
    ensures there { (c : ℕ) → number_in store.new row c ≡ by *ℤ number_in store.old row c }
    ensures same { (r c : ℕ) → r ≢ row → number_in store.new r c ≡ number_in store.old r c }
{
    let mut link = store.row_heads[row as usize];
    let mut from = 0usize;
    'cells: while link != NONE {
        let cell = store.cells[link as usize];
        change_at(store, link, row, cell.column, by * cell.value);
        from = cell.column as usize + 1;
        link = store.cells[link as usize].next_in_row;
    }
}

/// Divides the numbers of a row by a common divisor.
pub(crate) fn divide_row(store: &mut Store, row: u32, by: i128)
    requires sound { IsSound store.old }
    requires row { row < length store.old.row_heads.items }
    requires positive { pos 0 <ℤ by }
    requires divides { (c : ℕ) → c < length store.old.column_heads.items → unsigned_abs by ∣ unsigned_abs (number_in store.old row c) }
    ensures sound { IsSound store.new }
    ensures rows { length store.new.row_heads.items ≡ length store.old.row_heads.items }
    ensures columns { length store.new.column_heads.items ≡ length store.old.column_heads.items }
    ensures there { (c : ℕ) → number_in store.new row c ≡ divided (unsigned_abs by) (number_in store.old row c) }
    ensures same { (r c : ℕ) → r ≢ row → number_in store.new r c ≡ number_in store.old r c }
{
    let mut link = store.row_heads[row as usize];
    let mut from = 0usize;
    'cells: while link != NONE {
        let cell = store.cells[link as usize];
        change_at(store, link, row, cell.column, quotient(cell.value, by));
        from = cell.column as usize + 1;
        link = store.cells[link as usize].next_in_row;
    }
}
