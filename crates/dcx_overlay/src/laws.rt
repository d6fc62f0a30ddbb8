//! What holds of all settings. There is no code: the clause is a statement about all of them.
ghost use Rattle.dcx_overlay.specs.Laws.{SettingsAreOne};

/// Lines of a settings file give one list of settings, and so does the trial.
pub fn settings_are_one()
    ensures { SettingsAreOne }
{}
