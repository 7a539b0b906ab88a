//! The payloads of the documents.
ghost use Rattle.std.specs.Prelude.{◌≡◌, ◌≤◌, [], IfOk, OnOk};
ghost use Rattle.sk_packed.specs.Payloads.{payload_of, KeepsPayloads};

use sk_base::{DocId, Text};
use sk_pieces::{Copier, Pieces};
use std::alloc::{AllocError, Global};
use std::marker::Model;

/// The payloads that are not empty, by their documents.
#[derive(Drop)]
pub struct Payloads {
    texts: Pieces<Text>,
}

impl Model for Payloads {
    ghost use Rattle.sk_sorted.specs.Runs.{flat};
    ghost use Rattle.sk_packed.specs.Payloads.{Payloads as Seen};

    ghost Value = { Seen };

    ghost view = { λ p. flat p.texts };
}

impl Payloads {
    /// No payload. It takes no memory.
    pub fn new(alloc: Global) -> Payloads
        ensures { result ≡ [] }
    {
        Payloads {
            texts: Pieces::new(alloc),
        }
    }

    /// The same payloads, in memory of their own.
    pub fn copy(&self, alloc: Global) -> Result<Payloads, AllocError>
        ensures { IfOk result (λ copy. copy ≡ self.now) }
    {
        let texts = self.texts.copy(&TextCopier { alloc })?;
        Ok(Payloads { texts })
    }

    /// The payload of the document, empty where it has none.
    pub fn of(&self, id: DocId) -> &str
        ensures { result.now ≡ payload_of id self.now }
    {
        match self.texts.get(id) {
            Some(text) => text.as_str(),
            None => "",
        }
    }

    /// Gives the document this payload.
    pub fn set(&mut self, id: DocId, payload: Text) -> Result<(), AllocError>
        requires { 1 ≤ id }
        ensures value { OnOk result (payload_of id self.new ≡ payload) }
        ensures others { OnOk result (KeepsPayloads id self.old self.new) }
    {
        if payload.as_str().is_empty() {
            self.clear(id);
            return Ok(());
        }
        self.texts.put(id, payload)?;
        Ok(())
    }

    /// Takes the payload of the document away.
    pub fn clear(&mut self, id: DocId)
        ensures value { payload_of id self.new ≡ [] }
        ensures others { KeepsPayloads id self.old self.new }
    {
        let _sorted = self.texts.length();
        self.texts.take(id);
    }
}

/// Copies payloads.
#[derive(Drop)]
struct TextCopier {
    alloc: Global,
}

impl Copier<Text> for TextCopier {
    fn copy(&self, x: &Text) -> Result<Text, AllocError> {
        Text::new(self.alloc, x.as_str())
    }
}
