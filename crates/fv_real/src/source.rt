// `RealSource`: an open file or standard input, as a source.
ghost use Rattle.std.specs.Prelude.{None, ◌≡◌, ◌≤◌, ◌+◌, OnOk, OnErr};
ghost use Rattle.fv_io.specs.Faults.{risen};

use crate::input::Input;
use fv_io::{Failed, Source};

/// An open file, or standard input, of which each rewind fails. Its count of faults rises at each error of the system,
/// at each rewind of standard input, and where its place would pass 64 bits. A call that the system interrupts fails
/// too: nothing is tried again.
#[derive(Drop)]
pub struct RealSource {
    input: Input,
    place: u64,
    pub(crate) faults: u64,
    rewinds: u64,
}

impl RealSource {
    // An input that was just opened, at its start.
    pub(crate) fn new(input: Input) -> RealSource
        ensures place { result.place ≡ 0 }
        ensures faults { result.faults ≡ 0 }
        ensures rewinds { result.rewinds ≡ 0 }
    {
        RealSource {
            input,
            place: 0,
            faults: 0,
            rewinds: 0,
        }
    }

    // Counts a fault.
    fn fail(&mut self) -> Failed
        ensures counted { self.new ≡ record self.old { faults = risen self.old.faults } }
        ensures later { self.old.faults ≤ self.new.faults }
    {
        self.faults = self.faults.saturating_add(1);
        Failed
    }

    // Moves the place by what was passed.
    fn pass(&mut self, count: u64) -> Result<(), Failed>
        ensures ok { OnOk result (self.new ≡ record self.old { place = self.old.place + count }) }
        ensures err { OnErr result (self.new ≡ record self.old { faults = risen self.old.faults }) }
        ensures later { self.old.faults ≤ self.new.faults }
    {
        let Some(place) = self.place.checked_add(count) else {
            return Err(self.fail());
        };
        self.place = place;
        Ok(())
    }
}

impl Source for RealSource {
    ghost bytes = { λ _. None };

    ghost place = { λ s. s.place };

    ghost faults = { λ s. s.faults };

    ghost rewinds = { λ s. s.rewinds };

    fn read(&mut self, buf: &mut [u8]) -> Result<usize, Failed> {
        match self.input.read(buf) {
            Ok(count) => {
                self.pass(count as u64)?;
                Ok(count)
            }
            Err(_) => Err(self.fail()),
        }
    }

    fn rewind(&mut self) -> Result<(), Failed> {
        match self.input.rewind() {
            Ok(()) => {
                self.place = 0;
                self.rewinds = self.rewinds.saturating_add(1);
                Ok(())
            }
            Err(_) => Err(self.fail()),
        }
    }

    fn skip(&mut self, size: u64) -> Result<u64, Failed> {
        match self.input.skip(size) {
            Ok(count) => {
                self.pass(count)?;
                Ok(count)
            }
            Err(_) => Err(self.fail()),
        }
    }
}
