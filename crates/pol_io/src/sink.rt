//! Where bytes go.
ghost use Rattle.std.specs.Prelude.{◌≡◌, ◌<◌, List, ℕ, [], length, take, IsOk, IfOk, OnOk, OnErr};
ghost use Rattle.std.specs.declared.option.Option.{Option};
ghost use Rattle.std.specs.Io.{WritesAtMost};
ghost use Rattle.std.specs.Io.KnownBytes.{Appends, Keeps, WriteAppends};
ghost use Rattle.pol_io.specs.Causes.{HasCauseOf};

/// Why a sink took nothing, or handed nothing on.
#[derive(Clone, Copy, Debug, PartialEq, Eq)]
pub enum SinkFault {
    /// The sink failed.
    Failed,
    /// The sink found no memory.
    Memory,
}

/// Where bytes go, in order.
pub trait Sink {
    /// The bytes that the sink holds, where they are known.
    ghost held: { Self → Option (List ℕ) };

    /// How often the sink has failed; it never falls.
    ghost faults: { Self → ℕ };

    /// Takes bytes from the front of the piece, at least one where it has one, and says how many. After an `Err` it
    /// took none. The count of faults rises in this call exactly where it answers `Failed`.
    fn write(&mut self, piece: &[u8]) -> Result<usize, SinkFault>
        ensures bound { WritesAtMost result piece.now }
        ensures progress { 0 < length piece.now → IfOk result (λ n. 0 < n) }
        ensures bytes { WriteAppends (held self.old) (held self.new) result piece.now }
        ensures cause { HasCauseOf SinkFault.Failed (faults self.old) (faults self.new) result };

    /// Hands on what it took and still keeps to itself, where it does so: a sink that keeps nothing to itself has
    /// nothing to do. It holds what it held. The count of faults rises in this call exactly where it answers `Failed`.
    fn flush(&mut self) -> Result<(), SinkFault>
        ensures bytes { Keeps (held self.old) (held self.new) }
        ensures cause { HasCauseOf SinkFault.Failed (faults self.old) (faults self.new) result }
    {
        Ok(())
    }
}

/// Writes the whole piece, with further calls for its rest where the sink takes less. An empty piece makes no call.
/// After an `Err` a prefix was taken that is shorter than the piece. The sink's count of faults rises exactly where the
/// answer is `Failed`.
pub fn write_all<K: Sink>(sink: &mut K, piece: &[u8]) -> Result<(), SinkFault>
    ensures ok { OnOk result (Appends (K.held sink.old) (K.held sink.new) piece.now) }
    ensures err { OnErr result ((n : ℕ) × (n < length piece.now)
        × Appends (K.held sink.old) (K.held sink.new) (take n piece.now)) }
    ensures empty { piece.now ≡ [] → IsOk result × (sink.new ≡ sink.old) }
    ensures cause { HasCauseOf SinkFault.Failed (K.faults sink.old) (K.faults sink.new) result }
{
    let mut at = 0;
    while at < piece.len() {
        at += sink.write(&piece[at..])?;
    }
    Ok(())
}
