//! The lines of numbers and arrays, as reports and certificates have them.
//!
//! | what must hold | where |
//! |---|---|
//! | what is appended is the text of the number, the shape or the array, or the line of it, byte for byte | the functions of `pieces` and `lines` |
//! | a number is read exactly where its text stands | `read_frac` |
//! | so many numbers of a line are read exactly where they stand | `read_entries` |
//! | a point has a line for each of its arrays, and constraints have a line each, numbered from 1 | `put_named_lines`, `put_dual_lines` |
#![tactic(auto)]

mod lines;
mod numbers;
mod pieces;
mod point;

pub use lines::{put_dual_lines, put_named_line, put_named_lines, put_number_line};
pub use numbers::{read_entries, read_frac};
pub use pieces::{put_array, put_bytes, put_entries, put_entry, put_frac, put_number, put_shape};
