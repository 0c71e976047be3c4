//! What every shelf does.

ghost use Rattle.std.specs.Prelude.{◌≡◌, ◌≤◌, ℕ, List, Option, IfOk, IfSome, vec_len};

use std::alloc::{AllocError, AllocFailed};

/// Why a fetch gave no bytes.
#[derive(Drop)]
pub enum ShelfError {
    /// The file isn't there or can't be read. The shelf keeps its name.
    Failed,
    /// The file has more bytes than the limit of the call.
    TooLong { limit: u32 },
    /// Memory ran out. The shelf is as it was.
    NoMemory,
}

impl From<AllocError> for ShelfError {
    ghost use Rattle.std.specs.Prelude.{◌≡◌};
    ghost use Rattle.cfg_io.specs.declared.shelf.ShelfError.TheVariants.{NoMemory};

    ghost from_gives = { λ _ e. e ≡ NoMemory };

    fn from(_error: AllocError) -> ShelfError {
        ShelfError::NoMemory
    }
}

impl<T: Drop> From<AllocFailed<T>> for ShelfError {
    ghost use Rattle.std.specs.Prelude.{◌≡◌};
    ghost use Rattle.cfg_io.specs.declared.shelf.ShelfError.TheVariants.{NoMemory};

    ghost from_gives = { λ _ e. e ≡ NoMemory };

    fn from(_failed: AllocFailed<T>) -> ShelfError {
        ShelfError::NoMemory
    }
}

/// A place from which files are fetched by name.
pub trait Shelf {
    ghost use Rattle.cfg_io.specs.Shelf.{CarriesLimit, Files, MayAnswer, failed_after};

    /// The names on which it failed, in order: its length is the shelf's count of faults.
    ghost failed: { Self → List (List ℕ) };

    /// Its files, where it tells them.
    ghost files: { Self → Option Files };

    /// The bytes of the file of this name, which has at most `limit` of them.
    fn fetch(&mut self, name: &str, limit: u32) -> Result<Vec<u8>, ShelfError>
        ensures within { IfOk result (λ bytes. vec_len bytes ≤ limit) }
        ensures carries { CarriesLimit result limit }
        ensures told { IfSome (files self.old) (λ holds. MayAnswer (holds name.now) limit result) }
        ensures noted { failed self.new ≡ failed_after result name.now (failed self.old) }
        ensures kept { files self.new ≡ files self.old };
}
