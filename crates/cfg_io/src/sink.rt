//! What every sink does.

ghost use Rattle.std.specs.Prelude.{◌≡◌, ◌≤◌, ◌<◌, ℕ, List, Option, IfOk, OnOk, IfErr, OnErr, length, take};
ghost use Rattle.base.specs.Count.{Rose};
ghost use Rattle.cfg_io.specs.Sink.{taken_after, with_bytes};

/// A sink took nothing of a piece.
#[derive(Clone, Copy, PartialEq, Eq)]
pub struct SinkFailed;

/// A sink failed after it took this many bytes.
#[derive(Clone, Copy, PartialEq, Eq)]
pub struct Stopped {
    pub written: usize,
}

/// A place that takes bytes.
pub trait Sink {
    /// The count of its faults, which never falls.
    ghost faults: { Self → ℕ };

    /// The bytes that it took, where it tells them.
    ghost taken: { Self → Option (List ℕ) };

    /// Takes bytes from the front of a piece, at least one where it has any, and says how many.
    /// It takes no memory.
    fn put(&mut self, piece: &[u8]) -> Result<usize, SinkFailed>
        ensures within { IfOk result (λ count. count ≤ length piece.now) }
        ensures moves { IfOk result (λ count. 0 < length piece.now → 0 < count) }
        ensures takes { taken self.new ≡ taken_after result piece.now (taken self.old) }
        ensures steady { OnOk result (faults self.new ≡ faults self.old) }
        ensures rose { OnErr result (Rose (faults self.old) (faults self.new)) };
}

/// Puts all bytes out, in order. It takes no memory.
pub fn write_all<K: Sink>(sink: &mut K, bytes: &[u8]) -> Result<(), Stopped>
    ensures all { OnOk result (K.taken sink.new ≡ with_bytes (K.taken sink.old) bytes.now) }
    ensures steady { OnOk result (K.faults sink.new ≡ K.faults sink.old) }
    ensures prefix { IfErr result (λ stopped.
        K.taken sink.new ≡ with_bytes (K.taken sink.old) (take stopped.written bytes.now)) }
    ensures short { IfErr result (λ stopped. stopped.written < length bytes.now) }
    ensures rose { OnErr result (Rose (K.faults sink.old) (K.faults sink.new)) }
{
    let mut written = 0;
    while written < bytes.len() {
        match sink.put(&bytes[written..]) {
            Ok(count) => written += count,
            Err(SinkFailed) => return Err(Stopped { written }),
        }
    }
    Ok(())
}
