//! Reads the text of a certificate for a problem.
ghost use Rattle.std.specs.Prelude.{◌==◌, ◌<◌, ◌-◌, ◌^◌, MatchResult, count_by};
ghost use Rattle.dcx_cert_outline.specs.Drawn.{problem_outline};
ghost use Rattle.dcx_cert_lines.specs.Forms.{IsTextOf, IsReadFault};

use dcx_answer::CertFault;
use dcx_cert_lines::read_outlined;
use dcx_cert_outline::outline_of_problem;
use dcx_cert_sections::Sections;
use dcx_tree::Problem;
use std::alloc::Global;

/// The sections of the certificate that the bytes are the text of, with as many sections as told, for the problem.
///
/// `Form` where the bytes are the text of none: with the first line up to which they agree with none. What stands behind the
/// last line of a certificate counts as its next line. `Memory` where there is none; no other fault.
pub fn read_cert(
    alloc: Global,
    problem: &Problem,
    count: u32,
    bytes: &[u8],
) -> Result<Sections, CertFault>
    requires { count_by (λ c. c == 10) bytes.now < 2 ^ 32 - 1 }
    ensures { MatchResult result (IsTextOf (problem_outline problem.now) count bytes.now) (IsReadFault (problem_outline problem.now) count bytes.now) }
{
    match outline_of_problem(alloc, problem) {
        Ok(outline) => read_outlined(alloc, &outline, count, bytes),
        Err(_) => Err(CertFault::Memory),
    }
}
