//! Reads whole certificates.
ghost use Rattle.std.specs.Prelude.{◌≡◌, ◌==◌, ◌<◌, ◌-◌, ◌^◌, [], IfOk, IfErr, OnOk, MatchResult, length, count_by};
ghost use Rattle.dcx_cert_lines.specs.Forms.{IsTextOf, IsReadFault};
ghost use Rattle.dcx_cert_lines.specs.Templates.{IfMisfit, HasDistinctNames, AreRead, IsListStop, IsFileStop};

use crate::cursor::{Cursor, ReadStop};
use crate::heads::read_format;
use crate::section::read_section;
use dcx_answer::CertFault;
use dcx_cert_sections::{Format, Outline, Section, SectionList, Sections};
use std::alloc::Global;

/// Reads so many sections into an empty list.
fn read_sections(
    cursor: &mut Cursor<'_>,
    alloc: Global,
    outline: &Outline,
    format: Format,
    count: u32,
    list: &mut Vec<Section>,
) -> Result<(), ReadStop>
    requires empty { list.old.items ≡ [] }
    requires distinct { HasDistinctNames outline.now }
    ensures count { OnOk result (length list.new.items ≡ count) }
    ensures read { OnOk result (AreRead format outline.now list.new.items cursor.old.rest.now cursor.old.line cursor.new.rest.now cursor.new.line) }
    ensures misfit { IfErr result (IfMisfit (IsListStop format outline.now count cursor.old.rest.now cursor.old.line cursor.new.line)) }
{
    'sections: for k in 0..count {
        list.push(read_section(cursor, alloc, outline, format, u64::from(k) + 1)?)?;
    }
    Ok(())
}

/// Reads a certificate: its sections into an empty list. Gives its format.
fn read_all(
    cursor: &mut Cursor<'_>,
    alloc: Global,
    outline: &Outline,
    count: u32,
    list: &mut Vec<Section>,
) -> Result<Format, ReadStop>
    requires empty { list.old.items ≡ [] }
    requires distinct { HasDistinctNames outline.now }
    ensures read { IfOk result (λ format. IsTextOf outline.now count cursor.old.rest.now (record { format = format; list = list.new.items })) }
    ensures misfit { IfErr result (IfMisfit (IsFileStop outline.now count cursor.old.rest.now cursor.old.line cursor.new.line)) }
{
    let format = read_format(cursor, alloc)?;
    read_sections(cursor, alloc, outline, format, count, list)?;
    if cursor.rest.is_empty() {
        Ok(format)
    } else {
        Err(ReadStop::Misfit)
    }
}

/// The sections of the certificate that the bytes are the text of, with as many sections as told, for the problem with this
/// outline.
///
/// `Form` where the bytes are the text of none: with the first line that no such certificate has behind the lines before
/// it. What stands behind the last line of one counts as its next line.
pub fn read_outlined(
    alloc: Global,
    outline: &Outline,
    count: u32,
    bytes: &[u8],
) -> Result<Sections, CertFault>
    requires distinct { HasDistinctNames outline.now }
    requires few { count_by (λ c. c == 10) bytes.now < 2 ^ 32 - 1 }
    ensures { MatchResult result (IsTextOf outline.now count bytes.now) (IsReadFault outline.now count bytes.now) }
{
    let mut cursor = Cursor {
        rest: bytes,
        line: 1,
    };
    let mut list = Vec::new(alloc);
    match read_all(&mut cursor, alloc, outline, count, &mut list) {
        Ok(format) => Ok(Sections {
            format,
            list: SectionList::from_vec(list),
        }),
        Err(ReadStop::Misfit) => Err(CertFault::Form { line: cursor.line }),
        Err(ReadStop::Memory) => Err(CertFault::Memory),
    }
}
