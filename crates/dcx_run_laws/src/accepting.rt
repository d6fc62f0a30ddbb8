//! Certificates that are written, read again.
ghost use Rattle.dcx_run_laws.specs.Written.{WrittenCertificatesAreAccepted};

/// Of the same script and settings file `certify` accepts what `certificate` wrote, and tells how many of its sections aren't empty, or the
/// first section that fails does so by an operation that passes 128 bits; and it accepts what `migrate` wrote. It refuses either for its
/// length where that is more than 67,108,864 bytes.
pub fn written_certificates_are_accepted()
    ensures { WrittenCertificatesAreAccepted }
{}
