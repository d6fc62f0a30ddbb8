//! The values of a script, and what each may stand for: an operand, a whole number, a shape, rows of numbers, an axis.
//!
//! This is the lowest of the crates that carry a script out. What all of them speak of is defined here, in `specs/`: the
//! values of a script (`Values.antt`), what is carried along from statement to statement (`State`), and what it is to carry
//! something out (`Act`: a value and what is then carried along, or the first fault). A function of the code does what a
//! definition says (`Gives` of `View.antt`), and want of memory alone is free.
//!
//! A value is shared and not copied: what can be long stands behind an `Rc`, so `Value::share` takes no time that grows with
//! the value, and a list that nothing else shares is made longer where it is. No contract says so.
//!
//! | what must hold | where |
//! |---|---|
//! | a list or a tuple counts at most 20,000 items, with all that they hold, and is nested at most 64 deep | the invariant of `Items`, `AreCounted` of `specs/Meant.antt` |
//! | both are told without a walk through it | `Items::count`, `Items::depth` |
//! | one item more, or the fault of the limit that it passes, the depth first | `Items::push` |
//! | one list after the other, or the count that is too much | `joined` |
//! | the same value again; what it counts as an item, and how deep it is | `Value::share`, `Value::counted`, `Value::depth` |
//! | the fault of a script that the fault of an array or of a tree is | `array_fault`, `tree_fault`, `too_many`, `specs/Faults.antt` |
//! | what a value is where an expression is wanted, and whether it may be given there | `read_value`, `is_fit`, `specs/Kinds.antt` |
//! | whether it is numbers without a node, and its shape | `is_constant`, `plain_shape_of`, `specs/Kinds.antt` |
//! | the operands of a call, or the first fault of what is given, a nested list before an empty one | `operand_read`, `operands_read`, `numbers_read`, `specs/Operands.antt` |
//! | a plain array as a value, or its fault at the place of what makes it | `as_plain` |
//! | the number and the whole number that a value is | `is_number`, `are_numbers`, `number_of`, `whole_number` |
//! | sides of any size and the shape that they are, an axis | `Extent`, `told_side`, `sides_from`, `axis_of` |
//! | the array of equally long rows of numbers | `are_rows`, `rows_array` |
//! | each number of a range is a whole number of 128 bits | `Progression`, `specs/Ranges.antt` |
#![tactic(auto)]

mod extent;
mod fault;
mod items;
mod operands;
mod progression;
mod reading;
mod value;

pub use dcx_tree::Tree;
pub use extent::{Extent, axis_of, sides_from, told_side};
pub use fault::{ElabFault, array_fault, too_many, tree_fault};
pub use items::{Items, MOST_ITEMS, joined};
pub use operands::{as_plain, numbers_read, operand_read, operands_read};
pub use progression::Progression;
pub use reading::{
    Operand, Reading, are_rows, is_constant, is_fit, is_number, plain_shape_of, read_value,
    rows_array, whole_number,
};
pub use value::{Objective, Value};
