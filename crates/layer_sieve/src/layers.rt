//! Layers of least costs, from the last one to the first.

ghost use Rattle.std.specs.Prelude.{◌≡◌, ◌<◌, ◌+◌, ◌-◌, ◌++◌, ◌∷◌, [], length, Some, IfOk, OnOk, slice_get};
ghost use Rattle.sieve_laws.specs.Sieve.{Layer};

use std::alloc::{AllocError, Global};
use std::marker::Model;

/// Layers of least costs, in the order in which they were added. One that is repeated is kept once.
#[derive(Debug, Drop)]
pub struct Layers {
    rows: Vec<Vec<Option<i128>>>,
    places: Vec<usize>,
}

impl Model for Layers {
    ghost use Rattle.std.specs.Prelude.{List, map};
    ghost use Rattle.sieve_laws.specs.Sieve.{Layer};
    ghost use Rattle.layer_sieve.specs.Layers.{row_at, AreKept};

    ghost Value = { List Layer };

    ghost view = { λ l. map (row_at l.rows.items) l.places.items };

    ghost invariant = { λ l. AreKept l.rows.items l.places.items };
}

impl Layers {
    /// A copy of this layer alone.
    pub fn new(alloc: Global, layer: &[Option<i128>]) -> Result<Layers, AllocError>
        ensures { IfOk result (λ l. l ≡ layer.now ∷ []) }
    {
        let mut rows = Vec::new(alloc);
        rows.push(layer.to_vec(alloc)?)?;
        let mut places = Vec::new(alloc);
        places.push(0)?;
        Ok(Layers { rows, places })
    }

    /// One more layer, a copy of this one.
    pub fn push(&mut self, alloc: Global, layer: &[Option<i128>]) -> Result<(), AllocError>
        ensures { OnOk result (self.new ≡ self.old ++ layer.now ∷ []) }
    {
        let place = self.rows.len();
        self.rows.push(layer.to_vec(alloc)?)?;
        self.places.push(place)?;
        Ok(())
    }

    /// The last layer once more.
    pub fn repeat(&mut self) -> Result<(), AllocError>
        ensures again { OnOk result ((layer : Layer) → slice_get self.old (length self.old - 1) ≡ Some layer →
            self.new ≡ self.old ++ layer ∷ []) }
        ensures count { OnOk result (length self.new ≡ length self.old + 1) }
    {
        let place = self.places[self.places.len() - 1];
        self.places.push(place)?;
        Ok(())
    }

    /// The layer at a place, from 0 in the order in which they were added.
    pub fn get(&self, at: u32) -> &[Option<i128>]
        requires { at < length self.now }
        ensures { slice_get self.now at ≡ Some result.now }
    {
        &self.rows[self.places[at as usize]]
    }
}
