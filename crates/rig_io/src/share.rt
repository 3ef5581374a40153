//! One value with several owners.
ghost use Rattle.std.specs.Prelude.{◌≡◌, IfOk};

use crate::memory::NoMemory;

/// A value of which another owner can be made, as by a counted pointer. A bare `Arc` isn't one: contracts see its
/// address, and that of its clone isn't known to be the same. Wrap it in a struct whose model is the value behind it.
pub trait Share: Drop + Sized {
    /// Another owner of an equal value.
    ///
    /// # Errors
    ///
    /// [`NoMemory`].
    fn share(&self) -> Result<Self, NoMemory>
        ensures { IfOk result (λ other. other ≡ self.now) };
}
