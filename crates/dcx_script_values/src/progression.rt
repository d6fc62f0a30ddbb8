//! What `range` gives.
ghost use Rattle.dcx_script_values.specs.Ranges.{AreInside};

/// `first`, `first + step`, .., so many, all of them whole numbers of 128 bits.
#[derive(Clone, Copy)]
pub struct Progression {
    pub first: i128,
    pub step: i128,
    pub count: u32,
    ghost inside: { AreInside first step count },
}
