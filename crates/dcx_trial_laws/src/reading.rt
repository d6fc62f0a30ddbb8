//! What reading the made-up script gives.
ghost use Rattle.dcx_trial_laws.specs.Read.{TrialHasNoFault, TrialIsRead, TrialIsShort};

/// What is read of the script of any size is its tree.
pub fn trial_is_read()
    ensures { TrialIsRead }
{}

/// A script that is no longer than a file may be has no fault.
pub fn trial_has_no_fault()
    ensures { TrialHasNoFault }
{}

/// The script of a size that is asked for is no longer than a file may be.
pub fn trial_is_short()
    ensures { TrialIsShort }
{}
