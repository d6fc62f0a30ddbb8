//! The first tableau of a program, put into the cells.
ghost use Rattle.std.specs.Prelude.{◌≡◌, ◌≢◌, ℕ, ◌+◌, ◌<◌, ◌≤◌, ◌^◌, ◌++◌, ◌∷◌, [], length, map, slice_get, Some, pos};
ghost use Rattle.dcx_tab.specs.Rows.{entry, row_at};
ghost use Rattle.dcx_tab.specs.Program.{tableau_row};
ghost use Rattle.dcx_links.specs.Matrix.{number_at, row_of};

use dcx_links::Links;
use dcx_tab::IntRow;

/// Puts a number where none stands. At 0 nothing is to be done.
fn put_number(links: &mut Links, i: u32, j: u32, number: i128)
    requires row { i < links.old.height }
    requires column { j < links.old.width }
    requires zero { number_at links.old i j ≡ pos 0 }
    ensures there { number_at links.new i j ≡ number }
    ensures same { (r c : ℕ) → ¬ ((r ≡ i) × (c ≡ j)) → number_at links.new r c ≡ number_at links.old r c }
    ensures height { links.new.height ≡ links.old.height }
    ensures width { links.new.width ≡ links.old.width }
{
    if number != 0 {
        links.set(i, j, number);
    }
}

/// Puts numbers into the first columns of row `i`, which has none.
fn put_entries(links: &mut Links, i: u32, entries: &[i128])
    requires row { i < links.old.height }
    requires zeros { (j : ℕ) → entry (row_of links.old i) j ≡ pos 0 }
    requires within { length entries.now ≤ links.old.width }
    requires few { length entries.now < 2 ^ 32 }
    ensures there { (j : ℕ) → j < length entries.now → number_at links.new i j ≡ entry entries.now j }
    ensures same { (k j : ℕ) → (k ≡ i → length entries.now ≤ j) → number_at links.new k j ≡ number_at links.old k j }
    ensures height { links.new.height ≡ links.old.height }
    ensures width { links.new.width ≡ links.old.width }
{
    'entries: for j in 0..entries.len() {
        put_number(links, i, j as u32, entries[j]);
    }
}

/// Puts a whole row where none stands: its entries, then what it has at z, at w and at the right side.
pub(crate) fn put_line(links: &mut Links, i: u32, entries: &[i128], z: i128, w: i128, right: i128)
    requires row { i < links.old.height }
    requires zeros { (j : ℕ) → entry (row_of links.old i) j ≡ pos 0 }
    requires width { links.old.width ≡ length entries.now + 3 }
    requires few { length entries.now + 3 < 2 ^ 32 }
    ensures row { row_of links.new i ≡ entries.now ++ z ∷ w ∷ right ∷ [] }
    ensures same { (k : ℕ) → k ≢ i → row_of links.new k ≡ row_of links.old k }
    ensures height { links.new.height ≡ links.old.height }
    ensures width { links.new.width ≡ links.old.width }
{
    put_entries(links, i, entries);
    let columns = entries.len() as u32;
    put_number(links, i, columns, z);
    put_number(links, i, columns + 1, w);
    put_number(links, i, columns + 2, right);
}

/// Puts the rows of a program into the first rows of a matrix of zeros.
pub(crate) fn put_rows(links: &mut Links, rows: &[IntRow])
    requires rows { length rows.now ≤ links.old.height }
    requires zeros { (k j : ℕ) → entry (row_of links.old k) j ≡ pos 0 }
    requires count { length rows.now < 2 ^ 32 }
    requires columns { links.old.width < 2 ^ 32 }
    requires width { (k : ℕ) → k < length rows.now → length (row_at (map tableau_row rows.now) k) ≡ links.old.width }
    ensures there { (k : ℕ) → k < length rows.now → row_of links.new k ≡ row_at (map tableau_row rows.now) k }
    ensures same { (k : ℕ) → length rows.now ≤ k → row_of links.new k ≡ row_of links.old k }
    ensures height { links.new.height ≡ links.old.height }
    ensures width { links.new.width ≡ links.old.width }
{
    'rows: for k in 0..rows.len() {
        let row = &rows[k];
        put_line(links, k as u32, row.entries.as_slice(), 0, 0, row.right);
    }
}
