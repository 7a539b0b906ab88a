//! Documents under a schema.
ghost use Rattle.std.specs.Prelude.{◌≡◌, ◌<◌, ◌^◌, [], length, All, IfOk};
ghost use Rattle.sk_base.specs.Loads.{IsLight};
ghost use Rattle.sk_model.specs.Edits.{nothing_live, IsLive};
ghost use Rattle.sk_documents.specs.Documented.{Documented, IsSoundLive};

use crate::Keeper;
use sk_base::{DocId, Schema};
use std::alloc::{AllocError, Global};
use std::fmt::{Debug, Error, Formatter, Write};
use std::marker::Model;

/// Live documents under one schema, whatever keeps them. `Debug` tells how many there are, and shows none.
#[derive(Drop)]
pub struct Documents<K: Keeper> {
    pub(crate) alloc: Global,
    pub(crate) schema: Schema,
    /// The highest id that was ever used, 0 at first.
    pub(crate) highest: DocId,
    pub(crate) keeper: K,
}

impl<K: Keeper> Model for Documents<K> {
    ghost use Rattle.sk_documents.specs.Documented.{Documented, IsSoundLive};

    ghost Value = { Documented K };

    ghost view = { λ d. record { schema = d.schema; live = record { documents = K.documents d.keeper; highest = d.highest }; keeper = d.keeper } };

    ghost invariant = { λ d. IsSoundLive (record { documents = K.documents d.keeper; highest = d.highest }) };
}

impl<K: Keeper> Documents<K> {
    /// No document. It takes no memory.
    pub fn new(alloc: Global, schema: Schema, keeper: K) -> Documents<K>
        requires { K.documents keeper ≡ [] }
        ensures { result ≡ record { schema = schema; live = nothing_live; keeper = keeper } }
    {
        Documents {
            alloc,
            schema,
            highest: 0,
            keeper,
        }
    }

    /// The same schema and the same documents, as another keeper has them.
    pub fn copy_over(&self, keeper: K) -> Result<Documents<K>, AllocError>
        requires { K.documents keeper ≡ self.now.live.documents }
        ensures { IfOk result (λ copy. copy ≡ record { schema = self.now.schema; live = self.now.live; keeper = keeper }) }
    {
        let schema = self.schema.copy(self.alloc)?;
        Ok(Documents {
            alloc: self.alloc,
            schema,
            highest: self.highest,
            keeper,
        })
    }

    pub fn schema(&self) -> &Schema
        ensures { result.now ≡ self.now.schema }
    {
        &self.schema
    }

    /// The allocator that it keeps.
    pub fn allocator(&self) -> Global {
        self.alloc
    }

    /// The highest id that was ever used, 0 at first.
    pub fn highest(&self) -> DocId
        ensures value { result ≡ self.now.live.highest }
        ensures sound { IsLive self.now.live }
        ensures light { All IsLight self.now.live.documents }
    {
        self.highest
    }

    /// What keeps the documents.
    pub fn keeper(&self) -> &K
        ensures value { result.now ≡ self.now.keeper }
        ensures documents { K.documents result.now ≡ self.now.live.documents }
        ensures sound { IsSoundLive self.now.live }
        ensures light { All IsLight self.now.live.documents }
        ensures few { length self.now.live.documents < 2 ^ 32 }
    {
        &self.keeper
    }
}

impl<K: Keeper> Debug for Documents<K> {
    fn fmt<W: Write>(&self, f: &mut Formatter<W>) -> Result<(), Error> {
        write!(f, "Documents of {}", self.keeper.count())
    }
}
