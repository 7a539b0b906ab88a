//! Documents in two parts or more.
ghost use Rattle.std.specs.Prelude.{◌<◌, length};

use sk_shards::Parts;

/// Two parts or more.
#[derive(Debug, Drop)]
pub struct Several {
    pub parts: Parts,
    ghost more: { 1 < length parts.indexes },
}
