//! Reads the first line of a certificate, and the first line of a section.
ghost use Rattle.std.specs.Prelude.{◌≡◌, ◌++◌, ◌∷◌, [], IfOk, IfErr, OnOk};
ghost use Rattle.std.specs.Bool.{MatchBool};
ghost use Rattle.dcx_cert_lines.specs.CertText.{first_line, head_line};
ghost use Rattle.dcx_cert_lines.specs.Templates.{IsRead, IsSame, IfMisfit, HasNoLine, MayHead, filled, plain_template, head_front, head_template, kind_text, HasNoHead, HasNoFormat};

use crate::cursor::{Cursor, ReadStop};
use crate::kind::Kind;
use dcx_cert_sections::Format;
use dcx_lines::{put_bytes, put_number};
use std::alloc::{AllocError, Global};

/// The word for a kind.
fn word_of(kind: Kind) -> &'static [u8]
    ensures { result.now ≡ kind_text kind }
{
    match kind {
        Kind::Optimal => b"optimal",
        Kind::Infeasible => b"infeasible",
        Kind::Unbounded => b"unbounded",
        Kind::Empty => b"none",
    }
}

/// Appends how a section of a kind begins.
fn put_head(out: &mut Vec<u8>, kind: Kind, number: u64) -> Result<(), AllocError>
    ensures { OnOk result (out.new.items ≡ out.old.items ++ head_front kind number) }
{
    put_bytes(out, b"section ")?;
    put_number(out, number)?;
    put_bytes(out, b" ")?;
    put_bytes(out, word_of(kind))
}

/// Whether a line without numbers stands first. Reads it where it does.
fn reads(cursor: &mut Cursor<'_>, alloc: Global, text: &[u8]) -> Result<bool, AllocError>
    ensures { IfOk result (λ b. MatchBool b (IsRead (filled text.now [] ∷ []) cursor.old.rest.now cursor.old.line cursor.new.rest.now cursor.new.line)
        (IsSame cursor.old.rest.now cursor.old.line cursor.new.rest.now cursor.new.line × HasNoLine (plain_template text.now) cursor.old.rest.now)) }
{
    match cursor.plain(alloc, text) {
        Ok(()) => Ok(true),
        Err(ReadStop::Misfit) => Ok(false),
        Err(ReadStop::Memory) => Err(AllocError),
    }
}

/// Whether a section of a kind begins. Reads its first line where it does.
fn begins(
    cursor: &mut Cursor<'_>,
    alloc: Global,
    kind: Kind,
    number: u64,
) -> Result<bool, AllocError>
    ensures { IfOk result (λ b. MatchBool b (IsRead (head_line (kind_text kind) number ∷ []) cursor.old.rest.now cursor.old.line cursor.new.rest.now cursor.new.line)
        (IsSame cursor.old.rest.now cursor.old.line cursor.new.rest.now cursor.new.line × HasNoLine (head_template kind number) cursor.old.rest.now)) }
{
    let mut front = Vec::new(alloc);
    put_head(&mut front, kind, number)?;
    reads(cursor, alloc, &front)
}

/// Reads the first line of a section, which tells its kind.
pub(crate) fn read_head(
    cursor: &mut Cursor<'_>,
    alloc: Global,
    format: Format,
    number: u64,
) -> Result<Kind, ReadStop>
    ensures may { IfOk result (MayHead format) }
    ensures read { IfOk result (λ kind. IsRead (head_line (kind_text kind) number ∷ []) cursor.old.rest.now cursor.old.line cursor.new.rest.now cursor.new.line) }
    ensures misfit { IfErr result (IfMisfit (HasNoHead format number cursor.old.rest.now)) }
    ensures same { IfErr result (IfMisfit (IsSame cursor.old.rest.now cursor.old.line cursor.new.rest.now cursor.new.line)) }
{
    if begins(cursor, alloc, Kind::Optimal, number)? {
        return Ok(Kind::Optimal);
    }
    if begins(cursor, alloc, Kind::Infeasible, number)? {
        return Ok(Kind::Infeasible);
    }
    if begins(cursor, alloc, Kind::Empty, number)? {
        return Ok(Kind::Empty);
    }
    match format {
        Format::One => Err(ReadStop::Misfit),
        Format::Two => {
            if begins(cursor, alloc, Kind::Unbounded, number)? {
                return Ok(Kind::Unbounded);
            }
            Err(ReadStop::Misfit)
        }
    }
}

/// Reads the first line of a certificate, which tells its format.
pub(crate) fn read_format(cursor: &mut Cursor<'_>, alloc: Global) -> Result<Format, ReadStop>
    ensures read { IfOk result (λ format. IsRead (first_line format ∷ []) cursor.old.rest.now cursor.old.line cursor.new.rest.now cursor.new.line) }
    ensures misfit { IfErr result (IfMisfit (HasNoFormat cursor.old.rest.now)) }
    ensures same { IfErr result (IfMisfit (IsSame cursor.old.rest.now cursor.old.line cursor.new.rest.now cursor.new.line)) }
{
    if reads(cursor, alloc, b"certificate 1")? {
        return Ok(Format::One);
    }
    if reads(cursor, alloc, b"certificate 2")? {
        return Ok(Format::Two);
    }
    Err(ReadStop::Misfit)
}
