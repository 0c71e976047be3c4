//! Standard output as a sink.

ghost use Rattle.std.specs.Prelude.{◌≡◌, ◌≤◌, ◌<◌, IfOk, length};
ghost use Rattle.std.specs.Io.KnownBytes.{WriteAppends};

use crate::sink::{Sink, SinkFailed};
use std::io;
use std::io::{ErrorKind, Write};
use std::marker::Model;

/// Standard output. What it took is not told, and nothing that it took waits in a buffer. Contracts
/// see the count of its faults, which stands still at its last value.
#[derive(Drop)]
pub struct OutSink<R> {
    rt: R,
    faults: u64,
}

impl<R> Model for OutSink<R> {
    ghost use Rattle.std.specs.Prelude.{ℕ};

    ghost Value = { ℕ };

    ghost view = { λ s. s.faults };
}

impl<R> OutSink<R> {
    /// The standard output of this runtime, without faults so far.
    pub fn new(rt: R) -> OutSink<R>
        ensures { result ≡ 0 }
    {
        OutSink { rt, faults: 0 }
    }
}

impl<R: Print> Sink for OutSink<R> {
    ghost use Rattle.std.specs.Prelude.{None};

    ghost faults = { λ faults. faults };

    ghost taken = { λ _. None };

    fn put(&mut self, piece: &[u8]) -> Result<usize, SinkFailed> {
        let written = write_front(&mut io::writer(&self.rt), piece);
        if written.is_err() {
            self.faults = self.faults.saturating_add(1);
        }
        written
    }
}

// Bytes from the front of a piece, at least one where it has any. It writes again where a signal interrupts it. A
// write that takes nothing of such a piece would take nothing the next time either.
fn write_front<W: Write>(writer: &mut W, piece: &[u8]) -> Result<usize, SinkFailed>
    ensures within { IfOk result (λ count. count ≤ length piece.now) }
    ensures moves { IfOk result (λ count. 0 < length piece.now → 0 < count) }
    ensures wrote { WriteAppends (W.contents writer.old) (W.contents writer.new) result piece.now }
{
    if piece.is_empty() {
        return Ok(0);
    }
    for _ in 0..u64::MAX {
        match writer.write(piece) {
            Ok(count) if count > 0 => return Ok(count),
            Err(error) if error.kind() == ErrorKind::Interrupted => {}
            Ok(_) | Err(_) => return Err(SinkFailed),
        }
    }
    Err(SinkFailed)
}
