//! The settings of parameters: one line each, as `p = 4; q = [1/2, 2]`.
//!
//! `parse_settings` reads the bytes of a file: it answers the settings that they spell, or the first fault of one order,
//! with its place. Of their tokens `read::read_tokens` answers the settings that these spell, or the tokens from the first
//! one on that no settings go on with. Want of memory alone is free.
//!
//! | what must hold | where |
//! |---|---|
//! | what a token is to the grammar: a number of digits alone is told from any other | `specs/Terminal.antt` |
//! | how numbers, values, items and lines are spelled, and which are good: nothing divided by 0, rows of one length, at most 20,000 numbers, no name twice in a line | `specs/Grammar.antt` |
//! | which shape and which exact numbers a spelled value has | `specs/Meaning.antt` |
//! | good lines that the tokens spell, or the first token that no good lines go on with | `specs/Reading.antt`; `read::read_tokens` |
//! | where digits are divided by 0; where the 1,001st setting stands; the settings of a file, or the first fault of one order | `specs/File.antt`; `parse_settings` |
//! | tokens spell one list of good lines at most, and have no unexpected token then; bytes are refused for one fault at most, and spell no settings then | `laws` |
//! | each value that bytes spell has a number for each entry of its shape | `IsFull` of `specs/Meaning.antt`, `ItemsAreFull` of `specs/Laws.antt`; `laws::items_are_full` |
//! | bytes spell one list of settings at most | `SettingsAreOne` of `specs/Laws.antt`; `laws::settings_are_one` |
//!
//! The proof goes by reading token by token (`specs/Machine.antt`): tokens that are read spell good lines
//! (`proofs/Soundness.antt`), good lines are read (`proofs/Completeness.antt`), and whatever is read so far begins some
//! good lines (`proofs/Viability.antt`). Each function says how this reading goes on behind what it took
//! (`specs/Steps.antt`).
#![tactic(auto)]

mod file;
pub mod laws;
mod line;
mod number;
mod read;
mod role;
mod settings;
mod stop;
mod value;

pub use file::parse_settings;
pub use settings::{SettingItem, SettingLine, Settings};
