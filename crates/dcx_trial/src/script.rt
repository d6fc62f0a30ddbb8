//! The script of a made-up problem.
ghost use Rattle.std.specs.Prelude.{◌≡◌, ◌++◌, IfOk, OnOk, codes, decimal};
ghost use Rattle.dcx_trial.specs.Trial.{places as places_of, height_at, heights as heights_of, numbers_text, trial_text};

use dcx_shape::Bytes;
use itoa::Buffer;
use std::alloc::{AllocError, Global};

/// The height of the point at this place.
fn height(place: u32) -> u64
    ensures { result ≡ height_at place }
{
    let on_the_line = 2 * u64::from(place) + 1;
    if place % 5 == 0 {
        on_the_line + 10
    } else {
        on_the_line
    }
}

/// The places of so many points.
fn places(alloc: Global, size: u32) -> Result<Vec<u64>, AllocError>
    ensures { IfOk result (λ v. v.items ≡ places_of size) }
{
    let mut found = Vec::new(alloc);
    for place in 0..size {
        found.push(u64::from(place))?;
    }
    Ok(found)
}

/// The heights of so many points.
fn heights(alloc: Global, size: u32) -> Result<Vec<u64>, AllocError>
    ensures { IfOk result (λ v. v.items ≡ heights_of size) }
{
    let mut found = Vec::new(alloc);
    for place in 0..size {
        found.push(height(place))?;
    }
    Ok(found)
}

/// Appends the digits of a number.
fn put_number(out: &mut Vec<u8>, number: u64) -> Result<(), AllocError>
    ensures { OnOk result (out.new.items ≡ out.old.items ++ decimal number) }
{
    let mut buffer = Buffer::new();
    out.extend_from_slice(buffer.format(number).as_bytes())
}

/// Appends numbers, separated by a comma and a blank.
fn put_numbers(out: &mut Vec<u8>, numbers: &[u64]) -> Result<(), AllocError>
    ensures { OnOk result (out.new.items ≡ out.old.items ++ numbers_text numbers.now) }
{
    let [first, rest @ ..] = numbers else {
        return Ok(());
    };
    put_number(out, *first)?;
    for number in rest {
        put_next(out, *number)?;
    }
    Ok(())
}

/// Appends a comma, a blank and a number.
fn put_next(out: &mut Vec<u8>, number: u64) -> Result<(), AllocError>
    ensures { OnOk result (out.new.items ≡ out.old.items ++ (codes ", " ++ decimal number)) }
{
    out.extend_from_slice(b", ")?;
    put_number(out, number)
}

/// The script of the problem with so many points, of any number. Fails for want of memory alone.
#[tactic(auto, unfolding(crate::specs::Trial::trial_text))]
pub fn trial_script(alloc: Global, size: u32) -> Result<Bytes, AllocError>
    ensures { IfOk result (λ bytes. bytes ≡ trial_text size) }
{
    let places = places(alloc, size)?;
    let heights = heights(alloc, size)?;
    let mut text = Vec::new(alloc);
    text.extend_from_slice(b"import cvxpy as cp\nimport numpy as np\nt = np.array([")?;
    put_numbers(&mut text, &places)?;
    text.extend_from_slice(b"])\nb = np.array([")?;
    put_numbers(&mut text, &heights)?;
    text.extend_from_slice(
        b"])\ns = cp.Variable()\na = cp.Variable()\nq = cp.Parameter(nonneg=True)\n",
    )?;
    text.extend_from_slice(
        b"prob = cp.Problem(cp.Minimize(cp.norm1(s*t + a - b) + q*cp.abs(s)))\n",
    )?;
    Ok(Bytes::from_vec(text))
}
