//! What the script of a made-up problem is to its reader, and what it stands for. There is no code: each clause is a statement about
//! scripts of all sizes.
//!
//! | what must hold | where |
//! |---|---|
//! | whatever is read of the script is one tree, which is written out | `reading::trial_is_read`, `specs/Read.antt`, `specs/Tree.antt` |
//! | where the script is no longer than a file may be, nothing but want of memory keeps it from being read | `reading::trial_has_no_fault`, `specs/Read.antt` |
//! | at each size that a command line asks for the script is no longer than that | `reading::trial_is_short`, `specs/Sizes.antt` |
//! | at each such size nothing but want of memory keeps it from being carried out, and no variable of its problem is to be whole | `meaning::trial_is_carried_out`, `meaning::trial_has_no_whole` |
//! | where the script is read and carried out, its problem minimizes | `meaning::trial_minimizes`, `specs/Meaning.antt` |
//! | where the script is read and carried out, the rules accept its problem, also where its parameter is affine | `meaning::trial_is_accepted`, `specs/Meaning.antt` |
#![tactic(auto)]

pub mod meaning;
pub mod reading;
