//! Rows of shelves and sinks, used through their traits.

use cfg_io::{
    FileShelf, MemShelf, MemSink, NoMemory, OutSink, Shelf, ShelfError, Sink, Stopped, write_all,
};
use std::alloc::AllocError;
use std::cell::{Cell, RefCell};
use std::fmt::Display;
use std::io::ErrorKind;
use std::process::Abort;
use std::test::Fail;
use std::{fs, io};

#[derive(Clone, Copy, PartialEq, Eq)]
enum Outcome {
    Done,
    ReadFault,
    WriteFault,
    Other,
}

/// Copies a file of the shelf to the sink.
fn copy<H: Shelf, K: Sink>(shelf: &mut H, sink: &mut K, name: &str) -> Outcome {
    match shelf.fetch(name, 100) {
        Ok(bytes) => match write_all(sink, &bytes) {
            Ok(()) => Outcome::Done,
            Err(Stopped { written: _ }) => Outcome::WriteFault,
        },
        Err(ShelfError::Failed) => Outcome::ReadFault,
        Err(ShelfError::TooLong { limit: _ } | ShelfError::NoMemory) => Outcome::Other,
    }
}

/// A file's name, what comes of a copy, and what the sink has then.
type Copied = (&'static str, Outcome, &'static [u8]);

static COPIES: [Copied; 6] = [
    ("a", Outcome::Done, b"abc"),
    ("none", Outcome::ReadFault, b"abc"),
    ("b", Outcome::WriteFault, b"abcdefg"),
    ("a", Outcome::ReadFault, b"abcdefg"),
    ("a", Outcome::WriteFault, b"abcdefg"),
    ("b", Outcome::ReadFault, b"abcdefg"),
];

/// Two files, and the fourth fetch and the sixth fail.
fn fill(shelf: &mut MemShelf) -> Result<(), NoMemory> {
    shelf.add("a", b"old")?;
    shelf.add("a", b"abc")?;
    shelf.add("b", b"defgh")?;
    shelf.fail_at(5)?;
    shelf.fail_at(3)
}

fn assert_copies(rt: &impl Abort, shelf: &mut MemShelf, sink: &mut MemSink) {
    for (name, outcome, bytes) in &COPIES {
        assert!(rt; copy(shelf, sink, name) == *outcome, "at {name}");
        assert!(rt; sink.bytes() == *bytes, "at {name}");
    }
}

#[test]
fn copies_until_the_room_is_full(rt: HostRuntime) -> Result<(), Fail> {
    let mut shelf = MemShelf::new(rt.alloc());
    fill(&mut shelf)?;
    let mut sink = MemSink::new(rt.alloc(), 7)?;
    assert_copies(&rt, &mut shelf, &mut sink);
    Ok(())
}

/// Whether the file is read where so many bytes may be, and these are its bytes.
fn is_read<H: Shelf>(shelf: &mut H, name: &str, limit: u32, bytes: &[u8]) -> bool {
    match shelf.fetch(name, limit) {
        Ok(found) => found.as_slice() == bytes,
        Err(_) => false,
    }
}

fn is_too_long<H: Shelf>(shelf: &mut H, name: &str, most: u32) -> bool {
    match shelf.fetch(name, most) {
        Err(ShelfError::TooLong { limit }) => limit == most,
        _ => false,
    }
}

fn has_failed<H: Shelf>(shelf: &mut H, name: &str) -> bool {
    matches!(shelf.fetch(name, 4), Err(ShelfError::Failed))
}

#[test]
fn reads_files_and_writes_out(rt: HostRuntime) -> Result<(), Fail> {
    let path = "rows_machine_test_file";
    fs::write(&rt, path, "four")?;
    let mut shelf = FileShelf::new(&rt, rt.alloc());
    let fits = is_read(&mut shelf, path, 4, b"four");
    let is_longer = is_too_long(&mut shelf, path, 3);
    fs::remove_file(&rt, path)?;
    assert!(rt; fits);
    assert!(rt; is_longer);
    assert!(rt; has_failed(&mut shelf, path));
    assert!(rt; has_failed(&mut shelf, "."));
    assert!(rt; is_too_long(&mut shelf, "/dev/zero", 4));
    assert!(rt; write_all(&mut OutSink::new(&rt), b"out\n").is_ok());
    Ok(())
}

/// A standard output that takes two bytes, is interrupted, takes three more, and then takes nothing.
#[derive(Drop)]
struct ShortOutput {
    turn: Cell<u32>,
    taken: RefCell<Vec<u8>>,
}

impl Print for ShortOutput {
    fn print<D: Display + Drop>(&self, _value: D) -> io::Result<()> {
        Err(io::Error::from(ErrorKind::Unsupported))
    }

    fn println<D: Display + Drop>(&self, _value: D) -> io::Result<()> {
        Err(io::Error::from(ErrorKind::Unsupported))
    }

    fn write_all(&self, _bytes: &[u8]) -> io::Result<()> {
        Err(io::Error::from(ErrorKind::Unsupported))
    }

    fn write_some(&self, bytes: &[u8]) -> io::Result<usize> {
        let turn = self.turn.get();
        self.turn.set(turn.saturating_add(1));
        let most = match turn {
            0 => 2,
            1 => return Err(io::Error::from(ErrorKind::Interrupted)),
            2 => 3,
            _ => 0,
        };
        let count = bytes.len().min(most);
        let Ok(mut taken) = self.taken.try_borrow_mut() else {
            return Err(io::Error::from(ErrorKind::ResourceBusy));
        };
        taken.extend_from_slice(&bytes[..count])?;
        Ok(count)
    }
}

/// So many lines of two kinds, of six bytes each.
fn push_lines(text: &mut String, lines: u32) -> Result<(), AllocError> {
    for line in 0..lines {
        text.push_str(if line % 3 == 0 { "three\n" } else { "other\n" })?;
    }
    Ok(())
}

/// A file longer than any piece in which it is read.
#[test]
fn a_long_file_is_read_whole(rt: HostRuntime) -> Result<(), Fail> {
    let path = "rows_machine_long_file";
    let mut text = String::new(rt.alloc());
    push_lines(&mut text, 20_000)?;
    fs::write(&rt, path, text.as_str())?;
    let mut shelf = FileShelf::new(&rt, rt.alloc());
    let fits = is_read(&mut shelf, path, 120_000, text.as_bytes());
    let is_longer = is_too_long(&mut shelf, path, 119_999);
    fs::remove_file(&rt, path)?;
    assert!(rt; fits);
    assert!(rt; is_longer);
    Ok(())
}

/// The system is asked for the name that was given, however long it is.
#[test]
fn a_file_of_a_long_name_is_read(rt: HostRuntime) -> Result<(), Fail> {
    let name = "rows_reads_a_file_whose_name_is_longer_than_the_longest_name_of_a_description.txt";
    fs::write(&rt, name, "long")?;
    let is_whole = is_read(&mut FileShelf::new(&rt, rt.alloc()), name, 4, b"long");
    fs::remove_file(&rt, name)?;
    assert!(rt; is_whole);
    Ok(())
}

/// A standard output that takes at most 5,000 bytes of a piece.
#[derive(Drop)]
struct NarrowOutput {
    taken: RefCell<Vec<u8>>,
}

impl Print for NarrowOutput {
    fn print<D: Display + Drop>(&self, _value: D) -> io::Result<()> {
        Err(io::Error::from(ErrorKind::Unsupported))
    }

    fn println<D: Display + Drop>(&self, _value: D) -> io::Result<()> {
        Err(io::Error::from(ErrorKind::Unsupported))
    }

    fn write_all(&self, _bytes: &[u8]) -> io::Result<()> {
        Err(io::Error::from(ErrorKind::Unsupported))
    }

    fn write_some(&self, bytes: &[u8]) -> io::Result<usize> {
        let count = bytes.len().min(5_000);
        let Ok(mut taken) = self.taken.try_borrow_mut() else {
            return Err(io::Error::from(ErrorKind::ResourceBusy));
        };
        taken.extend_from_slice(&bytes[..count])?;
        Ok(count)
    }
}

/// Short writes of more than 4,096 bytes.
#[test]
fn long_texts_go_out_in_pieces(rt: HostRuntime) -> Result<(), Fail> {
    let mut text = Vec::from_elem(rt.alloc(), b'a', 7_000)?;
    let end = Vec::from_elem(rt.alloc(), b'b', 5_345)?;
    text.extend_from_slice(end.as_slice())?;
    let output = NarrowOutput {
        taken: RefCell::new(Vec::new(rt.alloc())),
    };
    let written = write_all(&mut OutSink::new(&output), text.as_slice());
    assert!(rt; written == Ok(()));
    assert!(rt; output.taken.into_inner().as_slice() == text.as_slice());
    Ok(())
}

#[test]
fn what_goes_out_is_the_front_that_is_told(rt: HostRuntime) -> Result<(), Fail> {
    let output = ShortOutput {
        turn: Cell::new(0),
        taken: RefCell::new(Vec::new(rt.alloc())),
    };
    let stopped = write_all(&mut OutSink::new(&output), b"abcdefgh");
    assert!(rt; stopped == Err(Stopped { written: 5 }));
    assert!(rt; output.taken.into_inner().as_slice() == b"abcde".as_slice());
    Ok(())
}
