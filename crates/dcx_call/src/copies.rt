//! Copies of calls and of what they hold.
ghost use Rattle.std.specs.Prelude.{◌≡◌, IfOk};

use crate::attribute::{Parameter, Variable};
use crate::call::Call;
use crate::linears::LinearCall;
use dcx_affine::Index;
use dcx_atom::copy_array;
use dcx_shape::{Places, copy_name};
use std::alloc::{AllocError, Global};

/// The same variable again.
pub fn copy_variable(alloc: Global, variable: &Variable) -> Result<Variable, AllocError>
    ensures { IfOk result (λ v. v ≡ variable.now) }
{
    let name = copy_name(alloc, &variable.name)?;
    Ok(Variable {
        name,
        shape: variable.shape,
        attribute: variable.attribute,
        whole: variable.whole,
    })
}

/// The same parameter again.
pub fn copy_parameter(alloc: Global, parameter: &Parameter) -> Result<Parameter, AllocError>
    ensures { IfOk result (λ p. p ≡ parameter.now) }
{
    let name = copy_name(alloc, &parameter.name)?;
    Ok(Parameter {
        name,
        shape: parameter.shape,
        attribute: parameter.attribute,
    })
}

/// The same index again.
fn copy_index(alloc: Global, index: &Index) -> Result<Index, AllocError>
    ensures { IfOk result (λ x. x ≡ index.now) }
{
    let places = Vec::from_slice(alloc, index.places.as_slice())?;
    Ok(Index {
        from: index.from,
        to: index.to,
        places: Places::from_vec(places),
    })
}

/// The same linear call again.
fn copy_linear(alloc: Global, call: &LinearCall) -> Result<LinearCall, AllocError>
    ensures { IfOk result (λ c. c ≡ call.now) }
{
    Ok(match call {
        LinearCall::Plus(call) => LinearCall::Plus(*call),
        LinearCall::Minus(call) => LinearCall::Minus(*call),
        LinearCall::Sum(call) => LinearCall::Sum(*call),
        LinearCall::Mean(call) => LinearCall::Mean(*call),
        LinearCall::CumSum(call) => LinearCall::CumSum(*call),
        LinearCall::Diff(call) => LinearCall::Diff(*call),
        LinearCall::Trace(call) => LinearCall::Trace(*call),
        LinearCall::Diag(call) => LinearCall::Diag(*call),
        LinearCall::Index(call) => LinearCall::Index(copy_index(alloc, call)?),
        LinearCall::Reshape(call) => LinearCall::Reshape(*call),
        LinearCall::Transpose(call) => LinearCall::Transpose(*call),
        LinearCall::HStack(call) => LinearCall::HStack(*call),
        LinearCall::VStack(call) => LinearCall::VStack(*call),
        LinearCall::Promote(call) => LinearCall::Promote(*call),
    })
}

impl Call {
    /// The same call again.
    pub(crate) fn copied(&self, alloc: Global) -> Result<Call, AllocError>
        ensures { IfOk result (λ c. c ≡ self.now) }
    {
        Ok(match self {
            Call::Variable(variable) => Call::Variable(copy_variable(alloc, variable)?),
            Call::Parameter(parameter) => Call::Parameter(copy_parameter(alloc, parameter)?),
            Call::Constant(array) => Call::Constant(copy_array(alloc, array)?),
            Call::Atom(atom) => Call::Atom(*atom),
            Call::Linear(call) => Call::Linear(copy_linear(alloc, call)?),
            Call::Pairing(pairing) => Call::Pairing(*pairing),
        })
    }
}
