// What bytes come from and go to. Contracts see what is left or held, where that is told, and a count of faults.
ghost use Rattle.std.specs.Prelude.{◌≡◌, ℕ, ◌<◌, ◌≤◌, List, length, Option};
ghost use Rattle.desk_io.specs.Calls.{failed_reads, failed_writes, Reads, Writes};

/// What a read answers.
#[derive(Clone, Copy, Debug, PartialEq, Eq)]
pub enum Got {
    /// The first so many bytes of those that were left, at least 1.
    Bytes(usize),
    /// No byte is left.
    End,
    /// A fault: no byte was given.
    Failed,
}

/// What a write answers.
#[derive(Clone, Copy, Debug, PartialEq, Eq)]
pub enum Put {
    /// The first so many bytes were appended, at least 1.
    Took(usize),
    /// A fault: no byte was appended.
    Failed,
}

/// Where bytes come from.
pub trait Source {
    /// The bytes that it has left, or none where it tells nothing of them.
    ghost left: { Self → Option (List ℕ) };

    /// How many of its reads failed. A failed read counts one, up to the last value, and no other counts.
    ghost faults: { Self → ℕ };

    /// Gives bytes into the buffer, as many as one call can. A call that fails gives none.
    fn read(&mut self, buf: &mut [u8]) -> Got
        requires { 0 < length buf.old }
        ensures bytes { Reads (left self.old) buf.new result (left self.new) }
        ensures counts { faults self.new ≡ failed_reads (faults self.old) result }
        ensures counted { faults self.old ≤ faults self.new };
}

/// Where bytes go to.
pub trait Sink {
    /// The bytes that it holds, or none where it tells nothing of them.
    ghost held: { Self → Option (List ℕ) };

    /// How many of its writes failed. A failed write counts one, up to the last value, and no other counts.
    ghost faults: { Self → ℕ };

    /// Appends bytes, as many as one call can. A call that fails appends none.
    fn write(&mut self, bytes: &[u8]) -> Put
        requires { 0 < length bytes.now }
        ensures bytes { Writes (held self.old) bytes.now result (held self.new) }
        ensures counts { faults self.new ≡ failed_writes (faults self.old) result }
        ensures counted { faults self.old ≤ faults self.new };
}
