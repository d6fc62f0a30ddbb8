//! What holds of all certificates. There is no code: each clause is a statement about all of them.
ghost use Rattle.dcx_cert_runs.specs.Laws.{SectionsAreShown, CertificatesAreOf, CertificatesAreOne, RefusalsAreOne, MigrationsAreOne};

/// Each certificate of an answer of an accepted problem shows the answer at its setting, which fits.
pub fn sections_are_shown()
    ensures { SectionsAreShown }
{}

/// A certificate of answers has the names, shapes, counts and order of its problem.
pub fn certificates_are_of()
    ensures { CertificatesAreOf }
{}

/// Settings of an accepted problem have one certificate: the same sections are empty, and the others show the same answers, but for what
/// their arrays hold past their ends, by the same weights, and tell the same values of the parameters.
pub fn certificates_are_one()
    ensures { CertificatesAreOne }
{}

/// Sections pass, or a first one is refused: with one number and one fault.
pub fn refusals_are_one()
    ensures { RefusalsAreOne }
{}

/// A certificate is migrated to one.
pub fn migrations_are_one()
    ensures { MigrationsAreOne }
{}
