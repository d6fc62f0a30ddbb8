//! What the made-up script stands for.
ghost use Rattle.dcx_trial_laws.specs.Meaning.{TrialHasNoWhole, TrialIsAccepted, TrialIsCarriedOut, TrialMinimizes};

/// Where the script of any size is read and carried out, the problem that comes of it minimizes.
pub fn trial_minimizes()
    ensures { TrialMinimizes }
{}

/// Where the script of any size is read and carried out, the rules accept the problem that comes of it, where its parameter is a number
/// and also where it is affine.
pub fn trial_is_accepted()
    ensures { TrialIsAccepted }
{}

/// Where the script of a size that is asked for is read, nothing but want of memory keeps it from being carried out.
pub fn trial_is_carried_out()
    ensures { TrialIsCarriedOut }
{}

/// Where the script of such a size is read and carried out, no variable of the problem that comes of it is to be whole.
pub fn trial_has_no_whole()
    ensures { TrialHasNoWhole }
{}
