//! The tableau of a linear program in linked cells: a pivot meets the numbers other than 0 and no other place.
//!
//! It stands above `dcx_tab` and not in it, so that what stands on the trait and the programs alone doesn't wait for its proof.
//! Its contract is that of the trait, as the contract of `Dense` is: both show the same table, and refuse the same pivots.
//!
//! A pivot at row r and column c walks c's chain and, row by row, tests every number that it would form: the row's chain and
//! that of r are passed together, once. Only then it writes. While all numbers have at most 62 bits no such number is too great,
//! and none is tested. Whether they still have is told by a size that is kept for each row, at least the magnitude of each of its
//! numbers: where a row is cleared its size is formed anew from the factors, and only where that has more bits the row is looked through.
//!
//! The numbers of r are listed once, and the rows that c's chain leads to are cleared in rising order, each in its cells: it is
//! multiplied where its factor isn't 1, a multiple of each listed number is taken from it, and it is divided by its common
//! divisor, which is looked for until it is 1. A cell comes or goes only in a column where r has a number, and its place there is
//! looked for from the cell that the row before it has, so a pivot passes each such column once.
#![tactic(auto)]

mod build;
mod chained;
mod clear;
mod cost;
mod factors;
pub mod laws;
mod mix;
mod narrow;
mod reduce;
mod wide;
mod words;

pub use chained::Chained;
