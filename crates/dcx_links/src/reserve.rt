//! A matrix of zeros, and cells that are made as they are needed.
ghost use Rattle.std.specs.Prelude.{◌≡◌, ◌≤◌, ℕ, length, pos, IfOk, vec_capacity};
ghost use Rattle.dcx_links.specs.Lines.{none};
ghost use Rattle.dcx_links.specs.Cells.{IsAt, head_at, number_in, IsSound};

use crate::store::{Cell, NONE, Store};
use std::alloc::{AllocError, Global};

/// So many links that lead nowhere.
pub(crate) fn make_heads(alloc: Global, count: u32) -> Result<Vec<u32>, AllocError>
    ensures count { IfOk result (λ v. length v.items ≡ count) }
    ensures none { IfOk result (λ v. (l : ℕ) → head_at v.items l ≡ none) }
{
    let mut heads = Vec::new(alloc);
    for _i in 0..count {
        heads.push(NONE)?;
    }
    Ok(heads)
}

/// A matrix of zeros, with the memory for each place.
pub(crate) fn store_of(alloc: Global, rows: u32, columns: u32) -> Result<Store, AllocError>
    ensures sound { IfOk result IsSound }
    ensures rows { IfOk result (λ s. length s.row_heads.items ≡ rows) }
    ensures columns { IfOk result (λ s. length s.column_heads.items ≡ columns) }
    ensures zeros { IfOk result (λ s. (r c : ℕ) → number_in s r c ≡ pos 0) }
{
    let count = rows as u64 * columns as u64;
    if NONE as u64 <= count {
        return Err(AllocError);
    }
    let row_heads = make_heads(alloc, rows)?;
    let column_heads = make_heads(alloc, columns)?;
    let cells = Vec::with_capacity(alloc, count as usize)?;
    Ok(Store {
        cells,
        row_heads,
        column_heads,
        free: NONE,
    })
}

/// Makes a cell where none is free and there is room for one.
pub(crate) fn make_free(store: &mut Store)
    requires sound { IsSound store.old }
    ensures sound { IsSound store.new }
    ensures kept { (i r c : ℕ) → IsAt store.old.cells.items i r c → IsAt store.new.cells.items i r c }
    ensures ready { store.new.free ≡ none → vec_capacity store.new.cells ≤ length store.new.cells.items }
    ensures rows { length store.new.row_heads.items ≡ length store.old.row_heads.items }
    ensures columns { length store.new.column_heads.items ≡ length store.old.column_heads.items }
    ensures same { (r c : ℕ) → number_in store.new r c ≡ number_in store.old r c }
{
    if store.free != NONE {
        return;
    }
    let at = store.cells.len();
    if at < store.cells.capacity() {
        store.cells.push_reserved(Cell {
            value: 0,
            row: 0,
            column: 0,
            next_in_row: NONE,
            next_in_column: NONE,
        });
        store.free = at as u32;
    }
}
