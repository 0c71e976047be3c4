//! The files of the system as a shelf.

ghost use Rattle.std.specs.Prelude.{◌≡◌, ◌≤◌, ◌+◌, Err, IfErr, IfOk, IfSome, Some, [], take, vec_len};
ghost use Rattle.std.specs.IoError.{error_kind};
ghost use Rattle.cfg_io.specs.Shelf.{CarriesLimit, MayAnswer};
ghost use Rattle.cfg_io.specs.Reading.{IsFaultOf, IsReadOf};

use crate::shelf::{Shelf, ShelfError};
use std::alloc::Global;
use std::io::{ErrorKind, Read};
use std::marker::Model;
use std::rt::Files;
use std::{fs, io};

/// The files of the system, by their paths. What they hold is not told. Contracts see the names on
/// which it failed.
#[derive(Drop)]
pub struct FileShelf<R> {
    rt: R,
    alloc: Global,
    failed: Vec<String>,
}

impl<R> Model for FileShelf<R> {
    ghost use Rattle.std.specs.Prelude.{List, ℕ, map, string_bytes};

    ghost Value = { List (List ℕ) };

    ghost view = { λ s. map string_bytes s.failed.items };
}

impl<R> FileShelf<R> {
    /// The files of this runtime, none of which failed so far.
    pub fn new(rt: R, alloc: Global) -> FileShelf<R>
        ensures { result ≡ [] }
    {
        FileShelf {
            rt,
            alloc,
            failed: Vec::new(alloc),
        }
    }
}

impl<R: Files> Shelf for FileShelf<R> {
    ghost use Rattle.std.specs.Prelude.{None};

    ghost failed = { λ names. names };

    ghost files = { λ _. None };

    // The memory for the name is taken first, so that a failure can always be kept.
    fn fetch(&mut self, name: &str, limit: u32) -> Result<Vec<u8>, ShelfError> {
        let kept_name = String::from_str(self.alloc, name)?;
        self.failed.reserve(1)?;
        let outcome = read_opened(self.alloc, fs::open(&self.rt, name), limit);
        if let Err(ShelfError::Failed) = &outcome {
            self.failed.push(kept_name).unwrap();
        }
        outcome
    }
}

// The bytes of a file, as far as it was opened and keeps the limit. One that couldn't be opened is a failure, unless
// memory ran out.
fn read_opened<R: Read + Drop>(
    alloc: Global,
    opened: io::Result<R>,
    limit: u32,
) -> Result<Vec<u8>, ShelfError>
    ensures told { IfOk opened (λ reader. IfSome (R.remaining reader) (λ left. MayAnswer (Some left) limit result)) }
    ensures within { IfOk result (λ bytes. vec_len bytes ≤ limit) }
    ensures carries { CarriesLimit result limit }
    ensures refused { IfErr opened (λ error. IsFaultOf (error_kind error ≡ ErrorKind.OutOfMemory) result) }
{
    answer_of(read_front(alloc, opened, limit), limit)
}

/// What a fetch answers of a file, by what reading it gave: its bytes up to one past the limit, or a fault of opening
/// or of reading it. Only a fault that says that memory ran out is told as that.
pub fn answer_of(read: io::Result<Vec<u8>>, limit: u32) -> Result<Vec<u8>, ShelfError>
    ensures read { IfOk read (λ bytes. IsReadOf bytes.items limit result) }
    ensures faulted { IfErr read (λ error. IsFaultOf (error_kind error ≡ ErrorKind.OutOfMemory) result) }
{
    match read {
        Ok(bytes) if bytes.len() > limit as usize => Err(ShelfError::TooLong { limit }),
        Ok(bytes) => Ok(bytes),
        Err(error) if error.kind() == ErrorKind::OutOfMemory => Err(ShelfError::NoMemory),
        Err(_) => Err(ShelfError::Failed),
    }
}

/// All that a file has, up to one byte past the limit, or the fault of opening or of reading it. Bytes are read in
/// pieces, so that the memory goes with those that are there.
fn read_front<R: Read + Drop>(
    alloc: Global,
    opened: io::Result<R>,
    limit: u32,
) -> io::Result<Vec<u8>>
    ensures told { IfOk opened (λ reader. IfOk result (λ bytes.
        IfSome (R.remaining reader) (λ left. bytes.items ≡ take (limit + 1) left))) }
    ensures unopened { IfErr opened (λ error. result ≡ Err error) }
{
    let mut bytes = Vec::new(alloc);
    opened?.take(u64::from(limit) + 1).read_to_end(&mut bytes)?;
    Ok(bytes)
}
