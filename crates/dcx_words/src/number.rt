//! The numbers that words spell.
ghost use Rattle.std.specs.Prelude.{◌≡◌};
ghost use Rattle.std.specs.Char.{is_ascii_digit};
ghost use Rattle.std.specs.List.{list_all};
ghost use Rattle.dcx_words.specs.Commands.{is_numeral as is_numeral_of, number_within as number_of};

/// Whether each byte is a digit.
fn are_digits(bytes: &[u8]) -> bool
    ensures { result ≡ list_all is_ascii_digit bytes.now }
{
    bytes.iter().all(|byte| byte.is_ascii_digit())
}

/// Whether the text is one digit or more, and not too many.
fn is_numeral(longest: usize, text: &str) -> bool
    ensures { result ≡ is_numeral_of longest text.now }
{
    let bytes = text.as_bytes();
    !bytes.is_empty() && bytes.len() <= longest && are_digits(bytes)
}

/// The number that at most so many digits spell, where it lies within the bounds.
pub fn number_within(longest: usize, least: u64, most: u64, text: &str) -> Option<u64>
    ensures { result ≡ number_of longest least most text.now }
{
    if !is_numeral(longest, text) {
        return None;
    }
    match text.parse::<u64>() {
        Ok(number) => (least <= number && number <= most).then_some(number),
        Err(_) => None,
    }
}
