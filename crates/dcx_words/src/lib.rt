//! The words of a command line: the plain forms, and what each of them asks for.
//!
//! The name of a command comes first, then its operands in order: `check SCRIPT`, `solve SCRIPT`,
//! `resolve SCRIPT SETTINGS`, `certificate SCRIPT SETTINGS`, `certify SCRIPT SETTINGS CERT`, `trial SIZE`,
//! `migrate SCRIPT SETTINGS CERT`, `iis SCRIPT SETTINGS`, `range SCRIPT SETTINGS PARAM`. `solve`, `resolve`, `certificate`, `trial`, `iis` and `range` may have
//! the option `--max-pivots N`, or `--max-pivots=N`, and `resolve` the word `--warm`.
//!
//! | what must hold | where |
//! |---|---|
//! | which words are a plain form, and what it asks for: files and a parameter's name that are not empty and begin with no minus, a size from 1 to 1,000, a limit of at most 1,000,000,000 | `command_of` of `specs/Commands.antt`; `plain_form` |
//! | the option stands at any place among the operands and sets the limit alone; it stands there once at most | `specs/Laws.antt`; `laws::option_rules` |
//! | `--warm` stands at any place among the operands of a `resolve`, but between the option and its number, and makes it warm; it stands there once at most, and nowhere else | `specs/Laws.antt`; `laws::warm_rules` |
//! | words that are a plain form, and words that are none | `proofs/Rows.antt` |
#![tactic(auto)]

pub mod laws;
mod number;
mod operands;
mod words;

pub use words::{Form, plain_form};
