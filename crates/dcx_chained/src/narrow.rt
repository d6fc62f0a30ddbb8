//! Sizes of rows, and numbers so small that no pivot on them is wide.
//!
//! A size is at least the magnitude of each number of its row. When a row is cleared its size is formed from the factors, and the
//! numbers themselves are looked at only where that isn't narrow any more.
ghost use Rattle.std.specs.Prelude.{◌≡◌, ◌≢◌, ℕ, ◌<◌, ◌≤◌, ◌^◌, length, ℤ, ◌*ℤ◌, true, unsigned_abs};
ghost use Rattle.dcx_links.specs.Matrix.{row_of};
ghost use Rattle.dcx_chained.specs.Narrow.{IsWithin, IsSized, AreSized, Bounds, size_at};

use dcx_links::Links;
use dcx_tab::Factors;

/// Below it products have at most 124 bits.
const NARROW: u128 = 1 << 62;

/// The greater of two numbers.
fn greater(a: u128, b: u128) -> u128
    ensures first { a ≤ result }
    ensures second { b ≤ result }
{
    if a < b { b } else { a }
}

/// A size of row `i`: the greatest magnitude of its numbers.
pub(crate) fn size_of(links: &Links, i: u32) -> u128
    requires { i < links.now.height }
    ensures { IsWithin result (row_of links.now i) }
{
    let mut walk = links.row(i);
    let mut size = 0u128;
    'numbers: while let Some(number) = walk.next() {
        size = greater(size, number.value.unsigned_abs());
    }
    size
}

/// Notes a size of row `i`, if it is narrow. Answers whether it is.
fn note_size(sizes: &mut [u64], i: u32, size: u128) -> bool
    requires { i < length sizes.old }
    ensures narrow { result ≡ true → size < 2 ^ 62 }
    ensures there { result ≡ true → size_at sizes.new i ≡ size }
    ensures others { (k : ℕ) → k ≢ i → size_at sizes.new k ≡ size_at sizes.old k }
{
    if NARROW <= size {
        return false;
    }
    sizes[i as usize] = size as u64;
    true
}

/// Notes sizes of the first rows, if they are narrow. Answers whether they are.
pub(crate) fn note_sizes(links: &Links, rows: u32, sizes: &mut [u64]) -> bool
    requires rows { rows ≤ links.now.height }
    requires room { rows ≤ length sizes.old }
    ensures { result ≡ true → AreSized rows sizes.new links.now }
{
    'rows: for i in 0..rows {
        let size = size_of(links, i);
        if !note_size(sizes, i, size) {
            return false;
        }
    }
    true
}

/// A size of a multiple of a number that has a size, where both are narrow, and else one that isn't narrow.
fn multiple_size(by: i128, size: u128) -> u128
    ensures below { result < 2 ^ 124 }
    ensures within { result < 2 ^ 62 → (x : ℤ) → unsigned_abs x ≤ size → unsigned_abs (by *ℤ x) ≤ result }
{
    let magnitude = by.unsigned_abs();
    if NARROW <= magnitude {
        return NARROW;
    }
    if NARROW <= size {
        return NARROW;
    }
    magnitude * size
}

/// A size of what a row becomes that is multiplied and from which a multiple of the pivot's row is taken, if it is narrow.
fn mixed_size(factors: Factors, size: u64, pivot_size: u128) -> u128
    ensures { result < 2 ^ 62 → Bounds factors.row size factors.by pivot_size result }
{
    let of_row = multiple_size(factors.row, size as u128);
    let of_pivot = multiple_size(factors.by, pivot_size);
    of_row + of_pivot
}

/// A size of row `i`: this one, where it is narrow.
fn size_from(links: &Links, i: u32, bound: u128) -> u128
    requires row { i < links.now.height }
    requires bound { bound < 2 ^ 62 → IsWithin bound (row_of links.now i) }
    ensures { IsWithin result (row_of links.now i) }
{
    if bound < NARROW {
        bound
    } else {
        size_of(links, i)
    }
}

/// Notes a size of row `i`, which was cleared by these factors, where all rows were narrow. Answers whether they still are.
pub(crate) fn resize(
    links: &Links,
    i: u32,
    factors: Factors,
    pivot_size: u128,
    sizes: &mut [u64],
    were_narrow: bool,
) -> bool
    requires row { i < links.now.height }
    requires room { i < length sizes.old }
    requires mixed { were_narrow ≡ true → (bound : ℕ) → Bounds factors.row (size_at sizes.old i) factors.by pivot_size bound → IsWithin bound (row_of links.now i) }
    ensures were { result ≡ true → were_narrow ≡ true }
    ensures sized { result ≡ true → IsSized (size_at sizes.new i) (row_of links.now i) }
    ensures others { (k : ℕ) → k ≢ i → size_at sizes.new k ≡ size_at sizes.old k }
{
    if !were_narrow {
        return false;
    }
    let bound = mixed_size(factors, sizes[i as usize], pivot_size);
    let size = size_from(links, i, bound);
    note_size(sizes, i, size)
}
