//! The text of a file.
ghost use Rattle.std.specs.Prelude.{◌≡◌, ◌≤◌, ◌<◌, length, take, MatchResult};
ghost use Rattle.std.specs.Str.{IsUtf8, IsValidUpTo};
ghost use Rattle.dcx_tokens.specs.File.{IsText, IsNoText};

use crate::fault::ReadFault;
use crate::position::start_of_text;
use crate::read::behind_text;

/// The most bytes of a file.
const MOST_BYTES: usize = 1_048_576;

/// The longest front of the bytes that is UTF-8, which has so many of them.
fn valid_front(bytes: &[u8], count: usize) -> &str
    requires { IsValidUpTo bytes.now count }
    ensures { result.now ≡ take count bytes.now }
{
    match str::from_utf8(&bytes[..count]) {
        Ok(front) => front,
        Err(_) => unreachable!(),
    }
}

/// The text that the bytes of a file are. It has 1,048,576 bytes at most. Takes no memory.
///
/// An `Err` is `TooLong` at 1:1 where there are more bytes, or else `NotText` at the first byte that is not UTF-8.
pub fn read_text(bytes: &[u8]) -> Result<&str, ReadFault>
    ensures { MatchResult result (λ text. (text.now ≡ bytes.now) × IsText bytes.now) (IsNoText bytes.now) }
{
    if bytes.len() > MOST_BYTES {
        return Err(ReadFault::TooLong(start_of_text().place));
    }
    match str::from_utf8(bytes) {
        Ok(text) => Ok(text),
        Err(error) => {
            let front = valid_front(bytes, error.valid_up_to());
            Err(ReadFault::NotText(behind_text(front).place))
        }
    }
}
