//! How what stands with an id is copied.
ghost use Rattle.std.specs.Prelude.{◌≡◌, IfOk};

use std::alloc::AllocError;

/// What makes equal things, each in memory of its own.
pub trait Copier<T> {
    fn copy(&self, x: &T) -> Result<T, AllocError>
        ensures { IfOk result (λ copy. copy ≡ x.now) };
}
