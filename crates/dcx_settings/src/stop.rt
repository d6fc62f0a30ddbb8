//! Why reading settings stops.
use dcx_tokens::Token;
use std::alloc::{AllocError, AllocFailed};

/// Why reading stops.
#[derive(Drop)]
pub(crate) enum Stop<'a> {
    /// Memory ran out.
    Memory,
    /// The tokens from the first one on that may not follow.
    At(&'a [Token]),
}

impl<'a> From<AllocError> for Stop<'a> {
    ghost use Rattle.std.specs.Prelude.{◌≡◌};
    ghost use Rattle.dcx_settings.specs.declared.stop.Stop.TheVariants as stops;

    ghost from_gives = { λ _ e. e ≡ stops.Memory };

    fn from(_e: AllocError) -> Stop<'a> {
        Stop::Memory
    }
}

impl<'a, T: Drop> From<AllocFailed<T>> for Stop<'a> {
    ghost use Rattle.std.specs.Prelude.{◌≡◌};
    ghost use Rattle.dcx_settings.specs.declared.stop.Stop.TheVariants as stops;

    ghost from_gives = { λ _ e. e ≡ stops.Memory };

    fn from(_e: AllocFailed<T>) -> Stop<'a> {
        Stop::Memory
    }
}
