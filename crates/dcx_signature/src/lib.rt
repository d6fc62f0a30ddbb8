//! How calls of the language are given their arguments, and what a `for` goes through. Nothing here changes the state.
//!
//! The calls are a table of data: `specs/Table.antt` has one line for each, and the code has the same lines. What a function
//! returns is to be what the definition of its name says, and want of memory alone is free.
//!
//! | what must hold | where |
//! |---|---|
//! | which arguments a call takes: their names in order, which of them by position, by name or either way, which must be given, and what each may be | `row_of`, `solve_row`, `specs/Table.antt` |
//! | the call of a name in a module, the name of a module, the words that a solve ignores | `function_named`, `module_word`, `is_ignored_word`, `is_word` |
//! | what a value must be to be given for an argument, beside the sides of x | `fits`, `specs/Fits.antt` |
//! | the texts and the number that calls ask for | `is_by_rows`, `is_infinity`, `is_one` |
//! | what each argument is given for | `arguments`, `specs/Arguments.antt` |
//! | the fault of the first, as written, that is given for nothing or doesn't fit, and then that of a missing one, at the called expression | `arguments`, `specs/Arguments.antt` |
//! | what was given for a word, and everything in order | `Bound::given`, `Bound::has`, `Bound::arguments` |
//! | the range of a first number, a stop and a step, or the count that is too much | `range_from`, `specs/Turns.antt` |
//! | what is gone through: a range, a list or a plain vector, and nothing else | `items_through` |
//! | how many items there are, and item k, which no list is made for | `Through::count`, `Through::item` |
//! | no number of a range passes 128 bits: each lies from the first up to the stop | `Through::item`, `Progression` of `dcx_script_values` |
//! | a plain number as a value | `number_value` |
//! | the place of the first token of an expression | `expr_place`, `primary_place`, `specs/Firsts.antt` |
#![tactic(auto)]

mod firsts;
mod fitting;
mod matching;
mod table;
mod turns;

pub use firsts::{expr_place, primary_place};
pub use fitting::{fits, is_by_rows, is_infinity, is_one};
pub use matching::{Argument, Bound, Given, arguments};
pub use table::{
    Function, Param, Row, Takes, Way, function_named, is_ignored_word, is_word, module_word,
    row_of, solve_row,
};
pub use turns::{Through, items_through, number_value, range_from};
