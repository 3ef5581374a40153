//! Where bytes come from.
ghost use Rattle.std.specs.Prelude.{◌≡◌, ◌≢◌, ℕ, ◌<◌, ◌≤◌, List, [], Option, IsTrue, length, take};
ghost use Rattle.rig_io.specs.Faults.{rose};
ghost use Rattle.rig_io.specs.Bytes.{Gave, GaveAll};
ghost use Rattle.rig_io.specs.Got.{OnBytes, LeavesRest};

/// What one read gave.
#[derive(Clone, Copy, Debug, PartialEq, Eq)]
pub enum Got {
    /// So many bytes, at least 1, in the buffer's prefix.
    Bytes(usize),
    /// Nothing is left.
    End,
    /// The read failed.
    Failed,
}

/// Bytes that come in pieces of any size, until their end or a fault.
pub trait Source {
    /// The bytes that are still to come, where the source tells them.
    ghost left: { Self → Option (List ℕ) };

    /// The number of reads that failed.
    ghost faults: { Self → ℕ };

    /// Reads some bytes into the buffer's prefix. The rest of the buffer is unchanged.
    fn read(&mut self, buf: &mut [u8]) -> Got
        requires { 0 < length buf.old }
        ensures some { OnBytes result (λ n. (0 < n) × (n ≤ length buf.old)) }
        ensures gave { OnBytes result (λ n. Gave (left self.old) (left self.new) (take n buf.new)) }
        ensures rest { LeavesRest result buf.old buf.new }
        ensures end { result ≡ Got.End → GaveAll (left self.old) (left self.new) [] }
        ensures kept { result ≡ Got.Failed → left self.new ≡ left self.old }
        ensures failed { result ≡ Got.Failed → IsTrue (rose (faults self.old) (faults self.new)) }
        ensures no_fault { result ≢ Got.Failed → faults self.new ≡ faults self.old }
        ensures faults { faults self.old ≤ faults self.new };
}
