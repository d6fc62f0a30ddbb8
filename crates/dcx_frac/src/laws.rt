//! Laws of fractions. Each function is a law: its clause is a statement about all fractions, and the body is empty.
ghost use Rattle.std.specs.Prelude.{◌≡◌};
ghost use Rattle.dcx_math.specs.LowestTerms.{IsInLowestTerms};
ghost use Rattle.dcx_frac.specs.Frac.{num_of, den_of, value};
ghost use Rattle.dcx_frac.specs.Fits.{Fits, IsRepresentable};
ghost use Rattle.dcx_frac.specs.declared.fraction.Frac.{Frac};

/// The parts of a fraction are the lowest terms of its value.
pub fn parts_are_lowest()
    ensures { (f : Frac) → IsInLowestTerms (value f) (num_of f) (den_of f) }
{}

/// The parts of a fraction are at most 2^127 - 1 in magnitude.
pub fn parts_fit()
    ensures { (f : Frac) → Fits (num_of f) × Fits (den_of f) }
{}

/// The value of a fraction is representable.
pub fn values_are_representable()
    ensures { (f : Frac) → IsRepresentable (value f) }
{}

/// Fractions of equal value are equal.
pub fn equal_values_are_equal()
    ensures { (f g : Frac) → value f ≡ value g → f ≡ g }
{}
