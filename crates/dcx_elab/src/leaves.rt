//! Values without parts, and signs before a value.
ghost use Rattle.std.specs.Prelude.{◌≡◌, IfOk};
ghost use Rattle.dcx_script_values.specs.Values.{text as text_value, end};
ghost use Rattle.dcx_script_values.specs.Meant.{meant};
ghost use Rattle.dcx_script_values.specs.View.{Gives};
ghost use Rattle.dcx_elab.specs.Expressions as meaning;

use dcx_operators::sign_value;
use dcx_script_state::State;
use dcx_script_values::{ElabFault, Items, Value};
use dcx_shape::Bytes;
use dcx_syntax::Signed;
use std::alloc::{AllocError, Global};
use std::rc::Rc;

/// A text of the script as a value.
pub fn text(alloc: Global, text: &Bytes) -> Result<Value, AllocError>
    ensures { IfOk result (λ v. meant v ≡ text_value text.now) }
{
    let bytes = Bytes::from_vec(Vec::from_slice(alloc, text.as_slice())?);
    Ok(Value::Text(Rc::new(alloc, bytes)?))
}

/// A list or a tuple of no items.
pub fn no_items(alloc: Global) -> Result<Rc<Items>, AllocError>
    ensures { IfOk result (λ r. r.value ≡ end) }
{
    Rc::new(alloc, Items::new(alloc)).map_err(AllocError::from)
}

/// A value with signs before it, of which the last one comes first.
pub fn signed(state: &mut State, signs: &[Signed], value: Value) -> Result<Value, ElabFault>
    ensures { Gives meant result state.new (meaning.signed signs.now (meant value) state.old) }
{
    let mut value = value;
    let mut left = signs.len();
    while left > 0 {
        left -= 1;
        let signed = signs[left];
        value = sign_value(state, signed.sign, signed.place, value)?;
    }
    Ok(value)
}
