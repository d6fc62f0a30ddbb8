//! Texts between quotes.
ghost use Rattle.std.specs.Prelude.{◌≡◌, ◌≤◌, ◌<◌, ◌+◌, length, false, IfSome};
ghost use Rattle.dcx_tokens.specs.Quoted.{up_to_quote};

/// How many characters come up to the closing quote, which counts; `None` where the line ends before it.
pub(crate) fn quoted_run(quote: char, after: &[char]) -> Option<usize>
    ensures value { result ≡ up_to_quote quote false after.now }
    ensures within { IfSome result (λ n. n ≤ length after.now) }
{
    let mut is_taken = false;
    let mut count = 0;
    for c in after {
        count += 1;
        if *c == '\n' {
            return None;
        }
        if is_taken {
            is_taken = false;
        } else if *c == quote {
            return Some(count);
        } else {
            is_taken = *c == '\\';
        }
    }
    None
}
