//! Plain arrays: NumPy's arithmetic of exact fractions in 128 bits, at once, with the faults in their order.
//!
//! What each call answers is a function of its arguments, defined in `specs/`; only want of memory comes beside it
//! (`Gives`). Laws tie these functions to the relations of the crates below.
//!
//! | what must hold | where |
//! |---|---|
//! | an array has 1 to 20,000 entries; else the count is told | `allowed_shape` |
//! | sides are aligned from the right and broadcast as NumPy does; inner sides of a matrix product are equal | `shared_shape`, `multiplied_shape`, `specs/Shapes.antt` |
//! | sums, differences, products and quotients entry by entry, or the first operation that passes 128 bits | `add`, `subtract`, `multiply`, `divide`, `specs/Operators.antt` |
//! | a divisor of 0 comes before everything else | `divide`, `specs/Operators.antt` |
//! | an entry of a matrix product starts from 0 and adds the product of each pair in order | `matmul` |
//! | signs, transposes | `negate`, `transpose` |
//! | the entries that indices and slices pick, or the fault of the first that picks none | `pick`, `index`, `specs/Picks.antt` |
//! | arrays of given numbers, of one number, of ones on the diagonal; the whole number that a number is | `array_with`, `number`, `constant`, `identity`, `as_whole`, `specs/Arrays.antt` |
//! | these are what the relations of shapes, slices, indices and formed entries say, and the entries are the exact numbers | `laws`, `specs/Laws.antt` |
#![tactic(auto)]

mod arrays;
mod fault;
mod forming;
pub mod laws;
mod operators;
mod picks;
mod products;
mod shapes;
mod turned;

pub use arrays::{array_with, as_whole, constant, identity, number};
pub use fault::ArrayFault;
pub use operators::{add, divide, multiply, subtract};
pub use picks::{index, pick};
pub use products::matmul;
pub use shapes::common_shape;
pub use turned::{negate, transpose};
