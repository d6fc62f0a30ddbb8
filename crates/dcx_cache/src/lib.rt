//! Sessions: one problem is reduced once, where that can be, and solved at setting after setting.
//!
//! A setting is asked first whether it fits the parameters. Then the session's program is put at the setting: where the rules
//! accept the problem also with parameters affine, and the program with affine coefficients can be built, that one is kept from
//! the start and only its coefficients are put at the setting; else the problem is reduced anew. The rows are solved by Bland's
//! rule over the linked tableau, and the answer is read back to the problem. A session can also start from the basic columns of its
//! last optimal answer, and go on by the dual simplex; the scaled program of the rows is made once for both.
//!
//! | what must hold | where |
//! |---|---|
//! | the program of a session at a setting, or the first thing that stops it | `specs/Programs.antt`: `SessionGives` |
//! | the map is kept exactly where the problem has one, and then one step is counted for each node | `Session::begin`, `Session::cached` |
//! | an answer has the numbers of the last basis of the run on the session's program; a stop is that of the first part that stops | `Session::solve`, `specs/Answers.antt`: `Answers` |
//! | an answer is right for the problem at the setting, which fits | `Session::solve`, `laws::answers_are_right` |
//! | a setting has one answer, with all its numbers, or one stop | `laws::one_answer` |
//! | two right answers at a setting, as of a map and of a fresh reduction, have one status and one value | `laws::answers_agree` |
//! | the pivot limit stops only a run whose limit is below 2^(columns + 1) + rows | `laws::limits_are_small` |
//! | the program, the answer of the rows and the tableau of the last answer are shown, and none after a stop | `Session::last`, `Session::tableau`, `Session::solve` |
//! | a stop changes nothing for the next setting: the problem, its map and the kept columns stay | `Session::solve`: `same`, `columns` |
//! | a session with a map counts no step at a setting, another one at most one for each node | `Session::solve` |
//! | a session begins, or its problem and its verdict are dropped, where memory is wanting | `begin` |
//! | what is done at settings is done in order, each from the columns and the tally that the one before it left | `session_outcomes`, `problem_outcomes`, `specs/InTurn.antt`: `EndInTurn` |
//! | a problem that has a map is reduced once for all settings, another one at most once more at each | `problem_outcomes`, `specs/Counts.antt`: `Counts` |
//! | the basic columns of the last optimal answer are kept, and no other answer and no stop changes them | `Session::solve`, `Session::solve_warm`, `specs/Columns.antt`: `Keeps` |
//! | a setting is answered by the warm run from these columns exactly where that is told, and else as without them | `Session::solve_warm`, `specs/Warm.antt`: `WarmAnswers` |
//! | a warm answer is right, and has the status and value of a fresh one | `laws::warm_answers_are_right`, `laws::warm_answers_agree` |
//! | a warm re-solve stops only where a fresh one does, and so | `Session::solve_warm`: `answers`, `laws::answered_stays_answered` |
//! | nodes of an accepted problem that are formed of fractions at a setting, or of affine numbers: no entry of a divisor is 0 there, at any point, or at every setting | `laws::fracs_divide_by_no_zero`, `laws::param_forms_divide_by_no_zero` |
//! | so a setting that fits the parameters is a fitting one of the problem | `laws::formed_are_fitting` |
//! | settings one after another have one list of answers, warm or not, and of stops | `laws::one_warm_answer`, `laws::one_warm_list` |
//! | the program at a setting is given, or the first thing that stops it | `Session::program`, `specs/Programs.antt`: `ProgramStops`, `IsProgramAt` |
//! | the program with affine coefficients is lent where it is kept | `Session::map` |
#![tactic(auto)]

mod answering;
mod beginning;
mod columns;
mod each_setting;
pub mod laws;
mod program;
mod rewarming;
mod scaled;
mod session;
mod stops;

pub use beginning::begin;
pub use each_setting::{EachSetting, problem_outcomes, session_outcomes};
pub use rewarming::Warmed;
pub use session::Session;
