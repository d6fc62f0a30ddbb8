//! The names of scripts and of settings files.
ghost use Rattle.dcx_run_laws.specs.Names.{NamesAreOnOneLine};

/// Where a script is read and carried out, no name of a parameter or of a setting has a line feed; and no name of a settings file has one.
pub fn names_are_on_one_line()
    ensures { NamesAreOnOneLine }
{}
