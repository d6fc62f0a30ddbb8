//! Places of entries of an array, seen by contracts as a list.
ghost use Rattle.std.specs.Prelude.{◌≡◌};

use std::marker::Model;

/// A list of places: entry i of a result is entry `places[i]` of the source, both in row-major order.
#[derive(Drop)]
pub struct Places {
    places: Vec<u32>,
}

impl Model for Places {
    ghost use Rattle.std.specs.Prelude.{ℕ, List};

    ghost Value = { List ℕ };

    ghost view = { λ p. p.places.items };
}

impl Places {
    ghost use Rattle.std.specs.Prelude.{◌≡◌};

    /// The list with these items. Takes no memory.
    pub fn from_vec(places: Vec<u32>) -> Places
        ensures { result ≡ places.items }
    {
        Places { places }
    }

    /// The items of the list. Takes no memory.
    pub fn into_vec(self) -> Vec<u32>
        ensures { result.items ≡ self }
    {
        self.places
    }

    /// The items of the list.
    pub fn as_slice(&self) -> &[u32]
        ensures { result.now ≡ self.now }
    {
        self.places.as_slice()
    }
}
