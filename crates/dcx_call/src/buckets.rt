//! Numbers that equal calls share, by which a tree finds them.
ghost use Rattle.std.specs.Prelude.{◌≡◌, ◌<◌};
ghost use Rattle.dcx_call.specs.Buckets.{mixed, all_mixed, fraction_mixed, fractions_mixed, linear_number, bucket_number};

use crate::call::Call;
use crate::linears::LinearCall;
use dcx_frac::Frac;

impl Call {
    /// A number that equal calls share. It is made of all bytes of a name, all places of an index and all entries of an array, so
    /// that calls which differ anywhere mostly have different ones.
    pub(crate) fn bucket_number(&self) -> u32
        ensures { result ≡ bucket_number self.now }
    {
        match self {
            Call::Variable(variable) => name_number(variable.name.as_slice()),
            Call::Parameter(parameter) => name_number(parameter.name.as_slice()),
            Call::Constant(array) => numbers_number(array.entries.as_slice()),
            Call::Atom(_) => 2,
            Call::Linear(call) => linear_number(call),
            Call::Pairing(_) => 3,
        }
    }
}

/// One more number, mixed with those before it.
fn mixed(n: u32, x: u32) -> u32
    ensures { result ≡ mixed n x }
{
    ((n as u64 * 1_000_003 + x as u64) % 4_294_967_291) as u32
}

/// A fraction, mixed with the numbers before it.
fn fraction_mixed(n: u32, x: &Frac) -> u32
    ensures { result ≡ fraction_mixed n x.now }
{
    let num = (x.num().unsigned_abs() % 0x1_0000_0000) as u32;
    let den = (x.den().unsigned_abs() % 0x1_0000_0000) as u32;
    mixed(mixed(n, num), den)
}

/// The number of a name.
fn name_number(name: &[u8]) -> u32
    ensures { result ≡ all_mixed 0 name.now }
{
    let mut n = 0;
    for byte in name {
        n = mixed(n, *byte as u32);
    }
    n
}

/// The number of an array's numbers.
fn numbers_number(numbers: &[Frac]) -> u32
    ensures { result ≡ fractions_mixed 0 numbers.now }
{
    let mut n = 0;
    for x in numbers {
        n = fraction_mixed(n, x);
    }
    n
}

/// The number of an index.
fn places_number(places: &[u32]) -> u32
    ensures { result ≡ all_mixed 0 places.now }
{
    let mut n = 0;
    for place in places {
        n = mixed(n, *place);
    }
    n
}

/// The number of a linear call.
fn linear_number(call: &LinearCall) -> u32
    ensures { result ≡ linear_number call.now }
{
    match call {
        LinearCall::Index(index) => places_number(index.places.as_slice()),
        _ => 1,
    }
}
