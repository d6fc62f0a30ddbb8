//! What the tokens of a text are to its reader. There is no code: each clause is a statement about all texts.
//!
//! | what must hold | where |
//! |---|---|
//! | a text is its tokens, in their places, with blanks, comments and line ends alone between them | `cutting::texts_are_cut`, `specs/Cut.antt` |
//! | each token is spelled as its kind says, and is the longest that begins where it does | `cutting::texts_are_cut`, `specs/Cut.antt`, `Words.antt` |
//! | the tokens are those of lines, one behind another, and the column of a line's first token says which indentations begin or end in front of it | `lines::texts_are_lines`, `specs/Lines.antt` |
//! | a line goes on over the end of a row of the text exactly where a bracket is open there | `lines::texts_are_lines`, `specs/Lines.antt` |
//! | no other list is so: one that leaves a token out, or has another, breaks a law | `one_list::laws_leave_one`, `specs/OneList.antt` |
//! | where a text has a fault, its place says why: no token is spelled there, or no number is that begins there | `faults`, `specs/Faults.antt` |
//! | or a quote isn't closed on its line, or a bracket never; or no line follows so; or 64 are open and one more opens. Up to there nothing is wrong | `faults`, `specs/Faults.antt` |
//! | a text without a fault is cut into tokens of lines, with at most 64 brackets and blocks open together, its numbers ended and its lines led by spaces | `whole::fine_texts`, `specs/Fine.antt` |
//! | and a text that is cut so has no fault | `whole::fine_texts`, `specs/Fine.antt` |
#![tactic(auto)]

pub mod cutting;
pub mod faults;
pub mod lines;
pub mod one_list;
pub mod whole;
