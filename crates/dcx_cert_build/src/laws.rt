//! Laws above the definitions of `specs/`. There is no code: each clause is a statement about all programs or answers.
ghost use Rattle.dcx_cert_build.specs.Laws.{ProgramsAreLaidOut, CertsAreOne};

/// The rows of the program that reducing a problem gives come from the entries of its constraints and then from the graphs of the
/// nodes that are reduced, by node, result entry and row. They come from there also where the program is put at a setting.
pub fn programs_are_laid_out()
    ensures { ProgramsAreLaidOut }
{}

/// An answer has one certificate, or one weight that passes 128 bits first.
pub fn certs_are_one()
    ensures { CertsAreOne }
{}
