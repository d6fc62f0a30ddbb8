//! From an accepted problem to the rows of its reduced program, and from an answer of the rows back to the problem.
//!
//! A program has unknowns of known kinds, rows over them, and what is to be small. First come the rows of the user's constraints,
//! in order and row-major order: the form of the left side minus that of the right side, which is at most 0, or 0. The right
//! form is scaled by -1 and added to the left one, constant first and then unknowns rising. Then come the rows of the graphs of
//! atoms, by node and result entry, each at most 0. What is to be small is the form of the objective, scaled by -1 where the
//! objective is maximized. Coefficients are fractions, at a setting, or affine in the parameters, and then the program can be
//! put at each setting.
//!
//! | what must hold | where |
//! |---|---|
//! | nodes are marked as the rules judge them, and the unknowns and rows laid out, before anything is formed | `reduce`, `specs/Marks.antt` |
//! | what is given is the program of the problem, or the first thing that stops it: too many rows or columns, then the first node and entry, then the first row | `reduce`, `specs/Reducing.antt`: `Reduces` |
//! | a problem is reduced in one way | `laws::one_reduction` |
//! | one step is counted for each node, and no more where it stops | `reduce` |
//! | of an accepted problem it is a reduced program: at the setting, and with affine coefficients at every one | `laws::numbers_are_reductions`, `laws::affine_are_reductions` |
//! | the rows, what is to be small and the kinds are those of the problem whose nodes are formed, in order | `program`, `specs/Program.antt`: `IsProgram` |
//! | what stops is the first operation that passes 128 bits, with its row; what is to be small counts as the row behind all others | `program`, `specs/Program.antt`: `IsRowStopWith` |
//! | a problem whose nodes are formed has one program | `laws::one_program` |
//! | formed nodes and their program have as many rows as the layout counts | `laws::rows_are_counted` |
//! | each row has one origin: the entry of a constraint, or a row of the graph of a node | `Reduced::origin`, `specs/Program.antt`: `origins_of` |
//! | a program at a setting has the rows at the setting, and the origins of before; there is one | `fix`, `laws::one_program_at_setting` |
//! | it speaks of declared parameters alone, so a setting with an array for each has all that is asked for | `laws::affine_are_known`, `laws::known_are_listed` |
//! | it is a reduced program of the problem there | `laws::fixed_are_reductions` |
//! | of nodes whose forms and rows are a reduced program, the program is the linear program of that one; of nodes that are formed with affine coefficients, it lists entries of declared parameters alone | `laws::programs_are_reductions`, `laws::programs_are_known` |
//! | it is told whether a program was put at a setting | `Reduced::from_map`, `reduce`, `fix` |
//! | a right answer of the linear program of a reduced program is one of the problem | `laws::answers_carry_over` |
//! | what is read from a right answer of the integer rows is right for the problem | `map_back`, `IsRightFor` in `Answers` of `dcx_right` |
//! | it has the numbers of that answer, or the first multiplier that passes 128 bits is told, with its row | `map_back`, `specs/Answers.antt`: `IsRead`, `StopsReading` |
//! | one answer is read, or one stop | `laws::readings_are_one` |
//! | the point of the unknowns that columns tell, an array for each variable | `point_read` |
#![tactic(auto)]

mod constraint;
mod fixing;
pub mod laws;
mod marks;
mod origin;
mod program;
mod reading;
mod reduced;
mod reducible;
mod reducing;
mod rows;
mod side;
mod stop;

pub use dcx_answer::{
    Answer, BranchStop, BranchTree, CertFault, FilterStop, Filtered, NotRanged, RangeStop, Ranged,
    Site, Stop, WholeAnswer,
};
pub use dcx_linear::Rows;
pub use dcx_lp_answer::LpAnswer;
pub use fixing::fix;
pub use origin::Origin;
pub use reading::{AnswerStop, map_back, point_read};
pub use reduced::Reduced;
pub use reducible::Reducible;
pub use reducing::reduce;
pub use stop::ReduceStop;
