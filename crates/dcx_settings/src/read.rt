//! Reading all settings.
ghost use Rattle.std.specs.Prelude.{IfOk, IfErr};
ghost use Rattle.dcx_settings.specs.Terminal.{terminals};
ghost use Rattle.dcx_settings.specs.Reading.{StopsUnexpected};
ghost use Rattle.dcx_settings.specs.Meaning.{AreSettings};

use crate::line::line;
use crate::settings::Settings;
use crate::stop::Stop;
use dcx_tokens::Token;
use std::alloc::Global;

/// The settings that the tokens of a text spell, or the tokens from the first one on that no settings go on with.
pub(crate) fn read_tokens<'a>(
    alloc: Global,
    text: &[u8],
    tokens: &'a [Token],
) -> Result<Settings, Stop<'a>>
    ensures ok { IfOk result (AreSettings (terminals text.now tokens.now)) }
    ensures stop { IfErr result (StopsUnexpected text.now (terminals text.now tokens.now)) }
{
    let mut found = Vec::new(alloc);
    let mut rest = tokens;
    'lines: while !rest.is_empty() {
        let (next, behind) = line(alloc, text, rest)?;
        found.push(next)?;
        rest = behind;
    }
    Ok(Settings::from_vec(found))
}
