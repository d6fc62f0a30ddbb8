//! What is wrong with a name of a setting or with the array of a parameter, and the stop that tells it.
ghost use Rattle.std.specs.Prelude.{◌≡◌};
ghost use Rattle.dcx_fit.specs.Faults.{IsOrMemory, stop_of};

use dcx_answer::Stop;
use dcx_frac::Frac;
use dcx_shape::{Name, Shape, copy_name};
use std::alloc::Global;

/// What is wrong with a name.
#[derive(Clone, Copy)]
pub(crate) enum Fault {
    /// No parameter has it.
    Unknown,
    /// The parameter has no array.
    Missing,
    /// The array of the parameter has another shape.
    Shape {
        /// The shape that the script declares.
        declared: Shape,
        /// The shape of the array.
        given: Shape,
    },
    /// An entry isn't as the attribute demands.
    Sign {
        /// The entry, counted from 0.
        entry: u32,
        /// The number that stands there.
        value: Frac,
    },
}

/// The stop with its own copy of the name, or want of memory for it.
pub(crate) fn stop_of(alloc: Global, name: &Name, fault: Fault) -> Stop
    ensures { IsOrMemory (stop_of name.now fault) result }
{
    match copy_name(alloc, name) {
        Ok(name) => named(name, fault),
        Err(_) => Stop::Memory,
    }
}

/// The stop with this name.
fn named(name: Name, fault: Fault) -> Stop
    ensures { result ≡ stop_of name fault }
{
    match fault {
        Fault::Unknown => Stop::UnknownParam { name },
        Fault::Missing => Stop::MissingParam { name },
        Fault::Shape { declared, given } => Stop::ParamShape {
            name,
            declared,
            given,
        },
        Fault::Sign { entry, value } => Stop::ParamSign { name, entry, value },
    }
}
