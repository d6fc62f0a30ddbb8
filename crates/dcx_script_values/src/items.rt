//! The items of lists and tuples, and how many there may be.
ghost use Rattle.std.specs.Prelude.{◌≡◌, ◌≤◌, ◌<◌, ◌+◌, ◌∷◌, ◌++◌, [], map, length, OnOk, OnErr, IfOk};
ghost use Rattle.dcx_script_values.specs.Values.{State, items_of, values_of, end, counted, depth, count, deepest, with_room, joined};
ghost use Rattle.dcx_script_values.specs.Meant.{meant};
ghost use Rattle.dcx_script_values.specs.View.{Gives};

use crate::fault::{ElabFault, too_many};
use crate::value::Value;
use dcx_arena::Count;
use dcx_shape::Place;
use std::alloc::{AllocError, Global};
use std::marker::Model;
use std::rc::Rc;

/// The most that the items of a list or a tuple may count.
pub const MOST_ITEMS: u32 = 20_000;

/// The deepest nesting of lists and tuples.
const MOST_DEPTH: u32 = 64;

/// The items of a list or a tuple, with what they count and how deep lists and tuples are nested in them.
#[cycle(values)]
#[derive(Drop)]
pub struct Items {
    values: Vec<Value>,
    count: u32,
    depth: u32,
}

impl Model for Items {
    ghost use Rattle.dcx_script_values.specs.Values.{Values};
    ghost use Rattle.dcx_script_values.specs.Codes.{values_code};

    ghost Value = { Values };

    ghost coded = { values_code };

    ghost use Rattle.dcx_script_values.specs.Meant.{items_meant, twice_count, AreCounted};

    ghost view = { λ a. items_meant a.values.items };

    ghost invariant = { λ a. AreCounted a.values.items a.count a.depth };

    ghost size = { twice_count };

    ghost use Rattle.std.proofs.Common.{arith};
    ghost use Rattle.dcx_script_values.specs.Falls.{most_deep_le, most_deeper_le};

    ghost size_decreases = { λ a h. omega (arith, most_deep_le a.values.items, most_deeper_le a.values.items) };
}

impl Items {
    /// No items.
    pub fn new(alloc: Global) -> Items
        ensures { result ≡ end }
    {
        Items {
            values: Vec::new(alloc),
            count: 0,
            depth: 0,
        }
    }

    /// The items in order.
    pub fn values(&self) -> &[Value]
        ensures values { map meant result.now ≡ items_of self.now }
        ensures few { length result.now ≤ 20000 }
    {
        self.values.as_slice()
    }

    /// What the items count, with what they hold.
    pub fn count(&self) -> u32
        ensures told { result ≡ count self.now }
        ensures most { result ≤ 20000 }
    {
        self.count
    }

    /// How deep lists and tuples are nested in the items.
    pub fn depth(&self) -> u32
        ensures told { result ≡ deepest self.now }
        ensures shallow { result < 64 }
    {
        self.depth
    }

    /// One item more, where there is room for it in the list or tuple that opens at the place.
    ///
    /// `BadArgument` where it would be nested too deep, else `TooMany` with the count where there would be too many.
    pub fn push(&mut self, place: Place, value: Value) -> Result<(), ElabFault>
        ensures gives { (s : State) → Gives (λ _. self.new) result s (with_room place self.old (meant value) s) }
        ensures same { OnErr result (self.new ≡ self.old) }
    {
        if value.depth() >= MOST_DEPTH {
            return Err(ElabFault::BadArgument(place));
        }
        let count = self.count() + value.counted();
        if count > MOST_ITEMS {
            return Err(too_many(place, Count::Items, count as u128));
        }
        self.append(value)?;
        Ok(())
    }

    /// One item more, for which there is room.
    fn append(&mut self, value: Value) -> Result<(), AllocError>
        requires few { count self.old + counted (meant value) ≤ 20000 }
        requires shallow { depth (meant value) < 64 }
        ensures added { OnOk result (self.new ≡ values_of (items_of self.old ++ meant value ∷ [])) }
        ensures same { OnErr result (self.new ≡ self.old) }
    {
        let count = self.count + value.counted();
        let depth = self.depth.max(value.depth());
        self.values.push(value)?;
        self.count = count;
        self.depth = depth;
        Ok(())
    }

    /// The items with more behind them, for which there is room.
    fn extended(self, others: &Items) -> Result<Items, AllocError>
        requires { count self + count others.now ≤ 20000 }
        ensures { IfOk result (λ items. items ≡ values_of (items_of self ++ items_of others.now)) }
    {
        let count = self.count + others.count();
        let depth = self.depth.max(others.depth());
        let mut values = self.values;
        push_shared(&mut values, others.values())?;
        Ok(Items {
            values,
            count,
            depth,
        })
    }

    /// The same items again.
    fn copy(&self, alloc: Global) -> Result<Items, AllocError>
        ensures { IfOk result (λ items. items ≡ self.now) }
    {
        let mut values = Vec::with_capacity(alloc, self.values.len())?;
        push_shared(&mut values, &self.values)?;
        Ok(Items {
            values,
            count: self.count,
            depth: self.depth,
        })
    }
}

/// The same values again, put behind others.
fn push_shared(all: &mut Vec<Value>, values: &[Value]) -> Result<(), AllocError>
    ensures { OnOk result (map meant all.new.items ≡ map meant all.old.items ++ map meant values.now) }
{
    for value in values {
        all.push(value.share()?)?;
    }
    Ok(())
}

/// The items themselves where nothing else shares them, and else a copy.
fn owned(alloc: Global, items: Rc<Items>) -> Result<Items, AllocError>
    ensures { IfOk result (λ own. own ≡ items.value) }
{
    match Rc::try_unwrap(items) {
        Ok(own) => Ok(own),
        Err(shared) => shared.copy(alloc),
    }
}

/// One list after the other. A list that nothing else shares is made longer where it is.
///
/// `TooMany` with the count where there would be too many items.
pub fn joined(
    alloc: Global,
    place: Place,
    first: Rc<Items>,
    second: &Items,
) -> Result<Rc<Items>, ElabFault>
    ensures { (s : State) → Gives (λ items. items.value) result s (joined place first.value second.now s) }
{
    let count = first.count() + second.count();
    if count > MOST_ITEMS {
        return Err(too_many(place, Count::Items, count as u128));
    }
    let all = owned(alloc, first)?.extended(second)?;
    Ok(Rc::new(alloc, all)?)
}
