//! Where a script's loads come from.

ghost use Rattle.std.specs.Prelude.{◌≡◌, ℕ, ◌+◌, ◌-◌, ◌^◌, ◌<◌, ◌≤◌, ◌⊎◌, List, IfOk, IsErrOf};

use std::alloc::Global;

/// Why a source returns no bytes for a path. The load is then refused, and the run goes on.
#[derive(Clone, Copy, Debug, PartialEq, Eq)]
pub enum Fault {
    /// The source has no bytes for the path, or could not read them. It counts such failures.
    Failed,
    /// Memory ran out.
    OutOfMemory,
}

/// What a run reads the bodies of its loads from.
pub trait Source {
    /// The source can return these bytes for this path. No read changes that.
    ghost holds: { Self → List ℕ → List ℕ → Type 0 };

    /// How often the source has failed.
    ghost failed: { Self → ℕ };

    /// Returns the bytes that the source holds under the path, which is given as it is in the script.
    ///
    /// `Failed` is returned only if `failures` rises by one in this call, or has already reached the greatest `u64`.
    /// `OutOfMemory` is returned only if memory ran out for the bytes. `failures` rises only for `Failed`.
    fn read(&mut self, alloc: Global, path: &[u8]) -> Result<Vec<u8>, Fault>
        ensures read { IfOk result (λ bytes. holds self.old path.now bytes.items) }
        ensures same { (path body : List ℕ) → (holds self.new path body → holds self.old path body) × (holds self.old path body → holds self.new path body) }
        ensures counted { failed self.old ≤ failed self.new }
        ensures one { failed self.new ≤ failed self.old + 1 }
        ensures bound { failed self.new < 2 ^ 64 }
        ensures failure { IsErrOf result Fault.Failed → (failed self.old < failed self.new) ⊎ (failed self.new ≡ 2 ^ 64 - 1) }
        ensures no_failure { ¬ IsErrOf result Fault.Failed → failed self.new ≡ failed self.old };

    /// How often the source has failed, up to the greatest `u64`.
    fn failures(&self) -> u64
        ensures { result ≡ failed self.now };
}
