//! Sources of bytes.
ghost use Rattle.std.specs.Prelude.{ℕ, ◌<◌, ◌≤◌, List, length, Option, IfOk, OnErr};
ghost use Rattle.tele_io.specs.Bytes.{HaveRisen, GivesBytes, Keeps};

/// A read that gave nothing, since what the source reads from failed.
#[derive(Clone, Copy, Debug, PartialEq, Eq, Drop)]
pub struct Failed;

/// Bytes that are read from the front, piece by piece.
pub trait Source {
    // the bytes that reads will give from here on, if they are known
    ghost left: { Self → Option (List ℕ) };
    // how often a read has failed
    ghost faults: { Self → ℕ };

    /// Reads some bytes into the front of `buf`, and returns how many. `Ok(0)` is the end of the
    /// input.
    ///
    /// `Failed` is returned only if a fault was counted in this call; no byte is lost then.
    fn read(&mut self, buf: &mut [u8]) -> Result<usize, Failed>
        requires { 0 < length buf.old }

        ensures within { IfOk result (λ n. n ≤ length buf.new) }
        ensures given { IfOk result (λ n. GivesBytes (left self.old) (left self.new) n buf.new) }

        ensures failed { OnErr result (HaveRisen (faults self.old) (faults self.new)) }
        ensures kept { OnErr result (Keeps (left self.old) (left self.new)) }

        ensures counted { faults self.old ≤ faults self.new };
}
