//! Builds the document of a record.
ghost use Rattle.std.specs.Prelude.{◌≡◌, ℕ, IfOk};
ghost use Rattle.sk_base.specs.Loads.{IsLight};
ghost use Rattle.sk_base.specs.Records.{FitsValues};
ghost use Rattle.sk_model.specs.Documents.{document_of};

use crate::{gathering, slots};
use sk_base::{Doc, Record, Schema};
use std::alloc::{AllocError, Global};

/// The document that the record makes under the schema.
pub fn build(alloc: Global, schema: &Schema, given: Record) -> Result<Doc, AllocError>
    requires fits { FitsValues schema.now.fields given.values }
    ensures value { IfOk result (λ doc. doc ≡ document_of schema.now given) }
    ensures light { IfOk result (λ doc. (id : ℕ) → IsLight (id, doc)) }
{
    let Record { values, payload } = given;
    let values = values.as_slice();
    Ok(Doc {
        terms: gathering::terms(alloc, schema, values)?,
        values: slots::values(alloc, schema.fields(), values)?,
        payload,
    })
}
