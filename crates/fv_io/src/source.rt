// A source of bytes that can be read again from its start.
ghost use Rattle.std.specs.Prelude.{◌≡◌, ◌≤◌, ◌+◌, List, ℕ, length, Option, IfOk, OnOk, OnErr};
ghost use Rattle.std.specs.Option.{ForSome};
ghost use Rattle.fv_io.specs.Faults.{risen};
ghost use Rattle.fv_io.specs.Told.{Reads};
ghost use Rattle.fv_io.specs.Reading.{Skips};

/// How many bytes are read at a time to skip them.
const SKIP_PIECE: usize = 4_096;

/// The outside failed: a count of faults rose in this call.
#[derive(Clone, Copy, Debug, PartialEq, Eq)]
pub struct Failed;

/// A source of bytes, as an open file.
pub trait Source {
    /// All its bytes, where it tells them.
    ghost bytes: { Self → Option (List ℕ) };

    /// Where the next read begins. It means nothing after a call that failed, until a rewind succeeds.
    ghost place: { Self → ℕ };

    /// How often it failed.
    ghost faults: { Self → ℕ };

    /// How often it was rewound.
    ghost rewinds: { Self → ℕ };

    /// Reads into the front of a buffer, and answers how many bytes were read. The answer 0 for a buffer that isn't
    /// empty means the end of the bytes. An answer may be smaller than the buffer before the end, too.
    fn read(&mut self, buf: &mut [u8]) -> Result<usize, Failed>
        ensures bound { IfOk result (λ count. count ≤ length buf.new) }
        ensures told { IfOk result (λ count. ForSome (bytes self.old) (λ told.
            Reads told (place self.old) count buf.new)) }
        ensures moved { IfOk result (λ count. place self.new ≡ place self.old + count) }
        ensures bytes { bytes self.new ≡ bytes self.old }
        ensures rewinds { rewinds self.new ≡ rewinds self.old }
        ensures later { faults self.old ≤ faults self.new }
        ensures steady { OnOk result (faults self.new ≡ faults self.old) }
        ensures failed { OnErr result (faults self.new ≡ risen (faults self.old)) };

    /// Goes back to the first byte.
    fn rewind(&mut self) -> Result<(), Failed>
        ensures start { OnOk result (place self.new ≡ 0) }
        ensures counted { OnOk result (rewinds self.new ≡ risen (rewinds self.old)) }
        ensures not_counted { OnErr result (rewinds self.new ≡ rewinds self.old) }
        ensures bytes { bytes self.new ≡ bytes self.old }
        ensures later { faults self.old ≤ faults self.new }
        ensures steady { OnOk result (faults self.new ≡ faults self.old) }
        ensures failed { OnErr result (faults self.new ≡ risen (faults self.old)) };

    /// Goes past the next `size` bytes, and answers how many there were: fewer than `size` only at the end. Where a
    /// type doesn't do it in a way of its own, the bytes are read and dropped.
    fn skip(&mut self, size: u64) -> Result<u64, Failed>
        ensures bound { IfOk result (λ count. count ≤ size) }
        ensures told { IfOk result (λ count. ForSome (bytes self.old) (λ told.
            Skips told (place self.old) size count)) }
        ensures moved { IfOk result (λ count. place self.new ≡ place self.old + count) }
        ensures bytes { bytes self.new ≡ bytes self.old }
        ensures rewinds { rewinds self.new ≡ rewinds self.old }
        ensures later { faults self.old ≤ faults self.new }
        ensures steady { OnOk result (faults self.new ≡ faults self.old) }
        ensures failed { OnErr result (faults self.new ≡ risen (faults self.old)) }
    {
        let mut scratch = [0; SKIP_PIECE];
        let mut passed = 0;
        while passed < size {
            let wanted = (size - passed).min(SKIP_PIECE as u64);
            let count = self.read(&mut scratch[..wanted as usize])?;
            if count == 0 {
                break;
            }
            passed += count as u64;
        }
        Ok(passed)
    }
}
