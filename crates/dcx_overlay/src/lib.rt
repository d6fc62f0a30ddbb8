//! The settings that a command asks for: lines of a settings file laid over the setting that a script ends with, and the two
//! settings of the trial problem.
//!
//! | what must hold | where |
//! |---|---|
//! | a line is laid over a setting: its values replace those of the same name, and new names follow in the line's order | `all_laid_over`, `specs/Settings.antt`: `LaidOver` |
//! | the two settings of the trial problem | `trial_settings`, `specs/Settings.antt`: `AreTrialSettings` |
//! | lines give one list of settings, and so does the trial | `laws::settings_are_one` |
#![tactic(auto)]

pub mod laws;
mod overlay;
mod trial;

pub use overlay::all_laid_over;
pub use trial::trial_settings;
