//! Sinks of bytes.
ghost use Rattle.std.specs.Prelude.{◌≡◌, ℕ, ◌<◌, ◌≤◌, List, [], length, take, Option, IfOk, OnOk, OnErr, IsErrOf};
ghost use Rattle.tele_io.specs.Bytes.{HaveRisen, Appends, Keeps};

/// Why a sink took nothing of a piece.
#[derive(Clone, Copy, Debug, PartialEq, Eq, Drop)]
pub enum SinkFault {
    /// What the sink writes to failed.
    Failed,
    /// There was no memory to keep the bytes in.
    Memory,
}

/// Takes bytes, piece by piece, and keeps them in order. It may hold back the last of them for a
/// while, and passes them on when `pass_on` is called.
pub trait Sink {
    // the bytes that were taken so far, if they are known
    ghost written: { Self → Option (List ℕ) };
    // the last of these bytes, which are not passed on yet; known even if the others are not
    ghost held: { Self → List ℕ };
    // how often a write has failed
    ghost faults: { Self → ℕ };

    /// Takes at least one byte from the front of a nonempty piece, and returns how many.
    ///
    /// `Failed` is returned only if a fault was counted in this call, possibly for bytes that were
    /// taken before. On an error nothing of the piece was taken.
    fn write(&mut self, bytes: &[u8]) -> Result<usize, SinkFault>
        requires { 0 < length bytes.now }

        ensures some { IfOk result (λ n. (0 < n) × (n ≤ length bytes.now)) }
        ensures taken { IfOk result
            (λ n. Appends (written self.old) (written self.new) (take n bytes.now)) }

        ensures failed { IsErrOf result SinkFault.Failed
            → HaveRisen (faults self.old) (faults self.new) }
        ensures kept { OnErr result (Keeps (written self.old) (written self.new)) }

        ensures counted { faults self.old ≤ faults self.new };

    /// Passes on all bytes that were taken and are held back.
    ///
    /// `Failed` is returned only if a fault was counted in this call. On an error some of the bytes
    /// may have been passed on, and the others are still held back.
    fn pass_on(&mut self) -> Result<(), SinkFault>
        ensures none { OnOk result (held self.new ≡ []) }
        ensures same { Keeps (written self.old) (written self.new) }

        ensures failed { IsErrOf result SinkFault.Failed
            → HaveRisen (faults self.old) (faults self.new) }

        ensures counted { faults self.old ≤ faults self.new };
}
