//! What holds of the checks of all certificates. There is no code: each clause is a statement about all of them.
ghost use Rattle.dcx_cert_check.specs.Laws.{TellsOneThing, PassedAreShown};
ghost use Rattle.dcx_cert_check.specs.CheckLaws.{AreSettled, AreSound, AreGivenArrays};

/// No certificate both passes its checks and fails, and one that fails has one fault.
pub fn tells_one_thing()
    ensures { TellsOneThing }
{}

/// A certificate of an accepted problem that passes its checks shows its answer: by slopes and steepness alone.
pub fn passed_are_shown()
    ensures { PassedAreShown }
{}

/// No check both passes and fails, and one that fails has one fault.
pub fn checks_are_settled()
    ensures { AreSettled }
{}

/// What is shown where the checks pass: the setting fits, the point is in the domain and feasible, the objective there is the
/// stated value, or at most the bound, and the multipliers are those of the problem.
pub fn checks_are_sound()
    ensures { AreSound }
{}

/// A setting that fits gives each parameter an array of its shape, a point with the names and the shapes of the variables, in
/// order, gives each variable one.
pub fn arrays_are_given()
    ensures { AreGivenArrays }
{}
