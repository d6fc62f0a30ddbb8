//! Why a file is refused.
ghost use Rattle.std.specs.Prelude.{IsTrue};
ghost use Rattle.dcx_refusal.specs.Refusals.{is_refusal};

use dcx_answer::NotRanged;
use dcx_arena::Count;
use dcx_frac::Passes;
use dcx_rules::Rule;
use dcx_shape::Place;

/// Which file is refused.
#[derive(Clone, Copy)]
pub enum RefusalSource {
    /// The script.
    Script,
    /// The file of settings.
    Settings,
    /// The file of certificates.
    Certificate,
}

/// What a refusal says beside its number and place.
#[derive(Clone, Copy)]
pub enum Carried {
    /// Nothing.
    Nothing,
    /// How far a count came that has a limit.
    Count {
        /// What was counted.
        what: Count,
        /// The count that passed the limit.
        count: u32,
    },
    /// The rule that the problem breaks.
    Rule(Rule),
    /// The operation on plain numbers that passes 128 bits.
    Passes(Passes),
    /// Why the parameter that is asked for has no range.
    NotRanged(NotRanged),
}

/// Why a file is refused, and where.
#[derive(Clone, Copy)]
pub struct Refusal {
    /// The file.
    pub source: RefusalSource,
    /// The number of the refusal.
    pub number: u8,
    /// The place in the file.
    pub place: Place,
    /// What it says beside that.
    pub carried: Carried,
    ghost listed: { IsTrue (is_refusal number carried) },
}
