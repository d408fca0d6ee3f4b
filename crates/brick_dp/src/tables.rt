//! The table of least costs.

ghost use Rattle.std.specs.Prelude.{◌≡◌, ◌+◌, ◌<◌, length, All};
ghost use Rattle.sieve_laws.specs.Sieve.{Layer};
ghost use Rattle.brick_dp.specs.Tables.{table_of, IsCell};

use layer_sieve::Layers;
use std::marker::Model;

/// The least costs of walks, from each node to the end. Layers count from 0, and behind the last brick there is one
/// more; places count from 0, in the order of the sums.
#[derive(Debug, Drop)]
pub struct Potentials {
    cols: u32,
    last: u32,
    layers: Layers,
}

impl Model for Potentials {
    ghost use Rattle.std.specs.Prelude.{◌≡◌, ◌+◌, All, length};
    ghost use Rattle.run_theory.specs.Certificates.{Table};
    ghost use Rattle.sieve_laws.specs.Sieve.{Layer};
    ghost use Rattle.brick_dp.specs.Tables.{table_of};

    ghost Value = { Table };

    ghost view = { λ p. table_of p.cols p.layers };

    ghost invariant = { λ p. All (λ (layer : Layer). length layer ≡ p.cols) p.layers × (length p.layers ≡ p.last + 1) };
}

impl Potentials {
    /// The table of these layers, the last one first, each of which has so many nodes. The last layer has this number.
    pub(crate) fn new(cols: u32, last: u32, layers: Layers) -> Potentials
        requires width { All (λ (layer : Layer). length layer ≡ cols) layers }
        requires height { length layers ≡ last + 1 }
        ensures { result ≡ table_of cols layers }
    {
        Potentials { cols, last, layers }
    }

    /// The least cost of a walk from a node to the end; none where there is no walk of finite cost.
    pub fn get(&self, layer: u32, i: u32) -> Option<i128>
        requires layer { layer < length self.now.rows }
        requires place { i < self.now.cols }
        ensures { IsCell self.now layer i result }
    {
        self.layers.get(self.last - layer)[i as usize]
    }
}
