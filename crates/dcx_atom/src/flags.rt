//! What is known of a value's sign, how a call moves with its arguments, and which way it bends.
ghost use Rattle.std.specs.Prelude.{◌≡◌};
ghost use Rattle.dcx_atom.specs.Signs.{sign_at, all_nonneg, all_nonpos};

/// What is known of the sign of each entry.
#[derive(Clone, Copy, Debug, PartialEq, Eq)]
pub struct Sign {
    /// Each entry is at least 0.
    pub nonneg: bool,
    /// Each entry is at most 0.
    pub nonpos: bool,
}

/// What is known of how a call moves with an argument.
#[derive(Clone, Copy, Debug, PartialEq, Eq)]
pub struct Trend {
    /// The value doesn't fall where the argument rises.
    pub rising: bool,
    /// The value doesn't rise where the argument rises.
    pub falling: bool,
}

/// Which way a call bends.
#[derive(Clone, Copy, Debug)]
pub enum Bend {
    /// The value between two arguments is at most that on the line between them.
    Convex,
    /// It is at least that.
    Concave,
}

/// The sign of the first argument, and nothing where there is none.
pub fn first_sign(signs: &[Sign]) -> Sign
    ensures { result ≡ sign_at signs.now 0 }
{
    match signs {
        [] => Sign {
            nonneg: false,
            nonpos: false,
        },
        [sign, ..] => *sign,
    }
}

/// Whether all are at least 0.
pub fn all_nonneg(signs: &[Sign]) -> bool
    ensures { result ≡ all_nonneg signs.now }
{
    signs.iter().all(|sign| sign.nonneg)
}

/// Whether all are at most 0.
pub fn all_nonpos(signs: &[Sign]) -> bool
    ensures { result ≡ all_nonpos signs.now }
{
    signs.iter().all(|sign| sign.nonpos)
}
