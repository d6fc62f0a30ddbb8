//! Slices of a side, as Python has them.
ghost use Rattle.std.specs.Prelude.{◌≡◌, ◌≢◌, ◌<◌, ◌^◌, ◌⊎◌, ◌↔◌, ℕ, ℤ, pos, negsuc, ◌+ℤ◌, ◌-ℤ◌, ◌*ℤ◌, ◌≤ℤ◌, ◌<ℤ◌, List, [], IfOk, IfErr};
ghost use Rattle.std.specs.List.{All};
ghost use Rattle.dcx_shape.specs.Run.{places_of};
ghost use Rattle.dcx_shape.specs.Slice.{counted, end_of, start_for, stop_for, IsBefore, moved, IsSlice};

use crate::fault::ShapeFault;
use crate::places::Places;
use crate::run::Run;
use std::alloc::Global;

/// A slice as it is written, `start:stop:step`. An end that is negative counts from the side's end.
#[derive(Clone, Copy)]
pub struct Slice {
    pub start: Option<i64>,
    pub stop: Option<i64>,
    pub step: i64,
}

/// The places that a slice takes of a side of `size` entries, in the slice's order. The step isn't 0.
///
/// `Empty` where it takes none.
pub fn slice_places(alloc: Global, size: u32, slice: Slice) -> Result<Places, ShapeFault>
    requires { slice.step ≢ pos 0 }
    ensures ok { IfOk result (IsSlice size slice) }
    ensures some { IfOk result (λ places. places ≢ []) }
    ensures within { IfOk result (All (λ p. p < size)) }

    ensures empty { (result ≡ Err ShapeFault.Empty) ↔ IsSlice size slice [] }
    ensures fault { IfErr result (λ e. (e ≡ ShapeFault.Empty) ⊎ (e ≡ ShapeFault.Memory)) }
{
    let run = slice_run(size, slice);
    if run.count == 0 {
        return Err(ShapeFault::Empty);
    }
    run.places(alloc)
}

/// The places that a slice takes, as a run.
pub(crate) fn slice_run(size: u32, slice: Slice) -> Run
    requires { slice.step ≢ pos 0 }
    ensures { IsSlice size slice (places_of result) }
{
    let start = slice_start(size, slice.step, slice.start);
    let stop = slice_stop(size, slice.step, slice.stop);
    let count = steps(start, stop, slice.step);
    let first = start.max(0) as u32;
    Run {
        first,
        step: slice.step,
        count,
    }
}

/// Where a slice with this step starts.
fn slice_start(size: u32, step: i64, start: Option<i64>) -> i64
    requires { step ≢ pos 0 }
    ensures { result ≡ start_for size step start }
{
    let n = size as i64;
    if step > 0 {
        slice_end(size, 0, n, 0, start)
    } else {
        slice_end(size, -1, n - 1, n - 1, start)
    }
}

/// Where a slice with this step stops.
fn slice_stop(size: u32, step: i64, stop: Option<i64>) -> i64
    requires { step ≢ pos 0 }
    ensures { result ≡ stop_for size step stop }
{
    let n = size as i64;
    if step > 0 {
        slice_end(size, 0, n, n, stop)
    } else {
        slice_end(size, -1, n - 1, -1, stop)
    }
}

/// An end of a slice between `low` and `high`.
fn slice_end(size: u32, low: i64, high: i64, default: i64, end: Option<i64>) -> i64
    requires { low ≤ℤ high }
    ensures { result ≡ end_of size low high default end }
{
    match end {
        None => default,
        Some(i) => count_on(size, i).clamp(low, high),
    }
}

/// A whole number as it counts on a side: from the end where it is negative.
pub(crate) fn count_on(size: u32, i: i64) -> i64
    ensures { result ≡ counted size i }
{
    if i < 0 { i + size as i64 } else { i }
}

/// How many of start, start + step, .. come before the stop.
fn steps(start: i64, stop: i64, step: i64) -> u32
    requires step { step ≢ pos 0 }
    requires up { (stop -ℤ start) <ℤ pos (2 ^ 32) }
    requires down { (start -ℤ stop) <ℤ pos (2 ^ 32) }
    ensures { (k : ℕ) → (k < result) ↔ IsBefore step (start +ℤ pos k *ℤ step) stop }
{
    gap(start, stop, step).div_ceil(step.unsigned_abs()) as u32
}

/// How far the stop lies ahead of the start on the way of the step, or 0.
fn gap(start: i64, stop: i64, step: i64) -> u64
    requires step { step ≢ pos 0 }
    requires up { (stop -ℤ start) <ℤ pos (2 ^ 32) }
    requires down { (start -ℤ stop) <ℤ pos (2 ^ 32) }
    ensures ahead { (d : ℕ) → (d < result) ↔ IsBefore step (moved step start d) stop }
    ensures small { result < 2 ^ 32 }
{
    if step > 0 {
        (stop - start).max(0) as u64
    } else {
        (start - stop).max(0) as u64
    }
}
