//! The scaled program of rows with fractions: a linear program with integer coefficients, in the form from which the simplex starts.
//!
//! Each row is multiplied by the least common multiple of its denominators and divided by its greatest common divisor
//! (`whole`), gets its slack, is negated where its right side is below 0, and gets an artificial where its slack can't
//! be basic (`start`, `columns`, `rows`). The rows with artificials are added up (`phase`).
//!
//! | what must hold | where |
//! |---|---|
//! | a program of over 600 rows or 2,400 columns is refused, and no other | `check_size`, `integer_rows`: `stops` |
//! | a row is multiplied by the least common multiple of its denominators, or the first multiple that passes is told | `least_multiple` |
//! | the program has the columns and rows that the written order of operations gives | `integer_rows`: `made` |
//! | a small integer is the fraction that the definitions have for it | `integer` |
//! | an operation is said to pass only where it does, and it is the first, with its row and operands | `integer_rows`: `stops` |
//! | rows have one scaled program | `laws::programs_are_one` |
//! | rows that have one have no stop, and rows have one stop at most, want of memory aside | `laws::made_or_stopped`, `laws::stops_are_one` |
//! | each row of the program is a row of fractions times its factor | `laws::rows_are_scaled` |
//! | columns that solve the program stand for unknowns that solve the rows | `laws::solutions_carry_over` |
//! | the cost at columns is the objective at these unknowns | `laws::objective_carries_over` |
//! | unknowns that solve the rows are those of columns that solve the program, at a cost that is the objective | `laws::solutions_come_from_columns` |
//! | an answer that is right for the program is right for the rows, with multipliers times the factors of the rows | `laws::right_answers_carry_over` |
//!
//! `specs/Columns.antt` says which columns a program has, `specs/WholeRows.antt` and `specs/IntegerRows.antt` how its
//! rows are formed, `specs/OneProgram.antt` that rows have one program, `specs/ScaledProgram.antt` and
//! `specs/Solutions.antt` what its rows have to do with the given ones, and `specs/Answers.antt` what an answer to the
//! program shows of these.
#![tactic(auto)]

mod columns;
pub mod laws;
mod multiple;
mod phase;
mod program;
mod rows;
mod size;
mod start;
mod stop;
mod whole;

pub use multiple::least_multiple;
pub use phase::integer;
pub use program::integer_rows;
pub use size::check_size;
pub use stop::RowStop;
