//! The places of a term in a document.
ghost use Rattle.std.specs.Prelude.{◌≡◌, ◌<◌, [], ◌∷◌, ◌++◌, All, IfOk, OnOk, OnErr};
ghost use Rattle.sk_base.specs.Order.{ArePositions};

use std::alloc::{AllocError, Global};
use std::marker::Model;

/// The places of a term in a document, strictly rising.
#[derive(Debug, Drop)]
pub struct Positions {
    items: Vec<u32>,
}

impl Model for Positions {
    ghost use Rattle.std.specs.Prelude.{List, ℕ};
    ghost use Rattle.sk_base.specs.Order.{ArePositions};

    ghost Value = { List ℕ };

    ghost view = { λ p. p.items.items };

    ghost invariant = { λ p. ArePositions p.items.items };
}

impl Positions {
    /// No place. It takes no memory.
    pub fn new(alloc: Global) -> Positions
        ensures { result ≡ [] }
    {
        Positions {
            items: Vec::new(alloc),
        }
    }

    /// Puts a place behind all others.
    pub fn push(&mut self, item: u32) -> Result<(), AllocError>
        requires behind { All (λ p. p < item) self.old }
        ensures ok { OnOk result (self.new ≡ self.old ++ item ∷ []) }
        ensures err { OnErr result (self.new ≡ self.old) }
    {
        self.items.push(item)?;
        Ok(())
    }

    /// The same places once more.
    pub fn copy(&self, alloc: Global) -> Result<Positions, AllocError>
        ensures { IfOk result (λ copy. copy ≡ self.now) }
    {
        let items = self.items.as_slice().to_vec(alloc)?;
        Ok(Positions { items })
    }

    pub fn as_slice(&self) -> &[u32]
        ensures value { result.now ≡ self.now }
        ensures rising { ArePositions self.now }
    {
        self.items.as_slice()
    }
}
