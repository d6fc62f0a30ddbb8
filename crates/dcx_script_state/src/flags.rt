//! Which attributes a declaration asks for, and what they make of it.
ghost use Rattle.std.specs.Prelude.{◌≡◌, if◌then◌else◌};
ghost use Rattle.dcx_call.specs.declared.attribute.Attribute.TheVariants.{Free, Nonneg, Nonpos};
ghost use Rattle.dcx_script_state.specs.Attributes.{trues, may_stand, attribute_of, whole_of, sign_attribute};

use dcx_call::{Attribute, Whole};

/// Which attributes are asked for.
#[derive(Clone, Copy)]
pub struct Flags {
    pub nonneg: bool,
    pub nonpos: bool,
    pub symmetric: bool,
    pub diag: bool,
    pub boolean: bool,
    pub integer: bool,
}

/// How many of these are true.
fn trues(flags: &[bool]) -> usize
    ensures { result ≡ trues flags.now }
{
    flags.iter().filter(|flag| **flag).count()
}

impl Flags {
    /// At most one of them is asked for, but `integer` may stand beside `nonneg` or beside `nonpos`.
    pub(crate) fn may_stand(self) -> bool
        ensures { result ≡ may_stand self }
    {
        let signs = trues(&[self.nonneg, self.nonpos]);
        let forms = trues(&[self.symmetric, self.diag, self.boolean]);
        if self.integer {
            signs <= 1 && forms == 0
        } else {
            signs + forms <= 1
        }
    }

    /// What is known of each value. What is to be 0 or 1 is listed as nonneg.
    pub(crate) fn attribute(self) -> Attribute
        ensures { result ≡ attribute_of self }
    {
        if self.nonneg || self.boolean {
            Attribute::Nonneg
        } else if self.nonpos {
            Attribute::Nonpos
        } else if self.symmetric {
            Attribute::Symmetric
        } else if self.diag {
            Attribute::Diag
        } else {
            Attribute::Free
        }
    }

    /// Which entries are whole.
    pub(crate) fn whole(self) -> Whole
        ensures { result ≡ whole_of self }
    {
        if self.boolean {
            Whole::Boolean
        } else if self.integer {
            Whole::Integer
        } else {
            Whole::Not
        }
    }

    /// What is known of each value of a parameter, of which only the sign can be told.
    pub(crate) fn sign(self) -> Attribute
        ensures { result ≡ sign_attribute self.nonneg self.nonpos }
    {
        if self.nonneg {
            Attribute::Nonneg
        } else if self.nonpos {
            Attribute::Nonpos
        } else {
            Attribute::Free
        }
    }
}
