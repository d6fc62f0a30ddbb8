//! Laws about runs. There is no code: each clause is a statement about all runs.
//!
//! | what must hold | where |
//! |---|---|
//! | no name of a settings file has a line feed, and none of a parameter or of a setting of a script | `naming::names_are_on_one_line`, `specs/Names.antt` |
//! | two runs of `solve` or `resolve` over one problem with the same report have the same answers | `telling::reports_tell_answers`, `specs/Answers.antt` |
//! | what `certificate` writes is accepted by `certify`, or an operation of a check passes 128 bits; and what `migrate` writes is accepted | `accepting::written_certificates_are_accepted`, `specs/Written.antt` |
#![tactic(auto)]

pub mod accepting;
pub mod naming;
pub mod telling;
