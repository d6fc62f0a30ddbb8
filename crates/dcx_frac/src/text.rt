//! The text of a fraction.
ghost use Rattle.std.specs.Prelude.{◌≡◌, ◌≤◌, ◌+◌, ◌++◌, length, take, drop};
ghost use Rattle.std.specs.Fmt.{signed_decimal};
ghost use Rattle.dcx_frac.specs.Text.{frac_text};

use crate::fraction::Frac;
use itoa::Buffer;

/// Writes `n`, or `n/d` where the denominator isn't 1, at the front of `out`, and answers the length of the text.
pub fn write_frac(f: &Frac, out: &mut [u8; 90]) -> usize
    ensures length { result ≡ length (frac_text f.now) }
    ensures short { result ≤ 80 }
    ensures text { take result out.new ≡ frac_text f.now }
    ensures rest { drop result out.new ≡ drop result out.old }
{
    let middle = write_integer(f.num(), out, 0);
    if f.den() == 1 {
        return middle;
    }
    out[middle] = b'/';
    write_integer(f.den(), out, middle + 1)
}

/// Writes an integer at a place, and answers where its text ends.
fn write_integer(n: i128, out: &mut [u8; 90], at: usize) -> usize
    requires { at ≤ 50 }
    ensures end { result ≡ at + length (signed_decimal n) }
    ensures short { length (signed_decimal n) ≤ 40 }
    ensures text { take result out.new ≡ take at out.old ++ signed_decimal n }
    ensures rest { drop result out.new ≡ drop result out.old }
{
    let mut buffer = Buffer::new();
    let digits = buffer.format(n).as_bytes();
    let end = at + digits.len();
    out[at..end].copy_from_slice(digits);
    end
}
