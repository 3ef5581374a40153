//! Where bytes go.
ghost use Rattle.std.specs.Prelude.{◌≡◌, ◌≢◌, ℕ, ◌<◌, ◌≤◌, List, Option, IsTrue, length, take};
ghost use Rattle.rig_io.specs.Faults.{rose};
ghost use Rattle.rig_io.specs.Bytes.{Appended};
ghost use Rattle.rig_io.specs.Put.{OnTook};

/// What one write did.
#[derive(Clone, Copy, Debug, PartialEq, Eq)]
pub enum Put {
    /// So many bytes of the piece's prefix were taken, at least 1.
    Took(usize),
    /// The write failed, and nothing was taken.
    Failed,
}

/// Takes bytes in pieces of any size.
pub trait Sink {
    /// The bytes that were written so far, where the sink tells them.
    ghost written: { Self → Option (List ℕ) };

    /// The number of writes that failed.
    ghost faults: { Self → ℕ };

    /// Writes a prefix of the piece.
    fn write(&mut self, piece: &[u8]) -> Put
        requires { 0 < length piece.now }
        ensures some { OnTook result (λ n. (0 < n) × (n ≤ length piece.now)) }
        ensures took { OnTook result (λ n. Appended (written self.old) (written self.new) (take n piece.now)) }
        ensures kept { result ≡ Put.Failed → written self.new ≡ written self.old }
        ensures failed { result ≡ Put.Failed → IsTrue (rose (faults self.old) (faults self.new)) }
        ensures no_fault { result ≢ Put.Failed → faults self.new ≡ faults self.old }
        ensures faults { faults self.old ≤ faults self.new };
}
