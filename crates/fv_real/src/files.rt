// `RealFiles`: the files of the system, by their paths, and standard input.
ghost use Rattle.std.specs.Prelude.{None, ◌≡◌, ◌≤◌, OnOk, IsErrOf, ◌≢◌, codes};
ghost use Rattle.fv_io.specs.Faults.{risen};

use crate::RealSource;
use crate::input::Input;
use fv_io::{FetchFault, Text};
use std::fs::{self, File};
use std::io::ErrorKind;
use std::rt::{Files, Stdin};

/// The name of standard input.
const STANDARD: &str = "-";

/// The files of the system, by their paths from the current folder. The name `-` is standard input, which is given
/// once: each later fetch of it counts a fault and fails, and so does each rewind of the source that was given.
#[derive(Drop)]
pub struct RealFiles<'a, R: Files> {
    rt: &'a R,
    stdin: Option<Stdin>,
    faults: u64,
    fetched: u64,
    given: u64,
    ghost inside: { given ≤ fetched },
}

// Counts a fault.
fn fail(faults: &mut u64) -> FetchFault
    ensures counted { faults.new ≡ risen faults.old }
    ensures failed { result ≡ FetchFault.Failed }
{
    *faults = faults.saturating_add(1);
    FetchFault::Failed
}

impl<'a, R: Files> RealFiles<'a, R> {
    /// The files as they are now, and standard input. It opens nothing.
    pub fn new(rt: &'a R, stdin: Stdin) -> RealFiles<'a, R>
        ensures faults { result.faults ≡ 0 }
        ensures fetched { result.fetched ≡ 0 }
        ensures given { result.given ≡ 0 }
    {
        RealFiles {
            rt,
            stdin: Some(stdin),
            faults: 0,
            fetched: 0,
            given: 0,
        }
    }
}

impl<'a, R: Files<File = File>> RealFiles<'a, R> {
    // Opens the file of this name, or takes standard input, where it wasn't taken yet.
    fn input_of(&mut self, name: &Text) -> Result<Input, FetchFault>
        ensures once { name.now ≡ codes "-" → OnOk result (self.old.stdin ≢ None) }
        ensures taken { name.now ≡ codes "-" → self.new.stdin ≡ None }
        ensures fetched { self.new.fetched ≡ self.old.fetched }
        ensures given { self.new.given ≡ self.old.given }
        ensures failed { IsErrOf result FetchFault.Failed → self.new.faults ≡ risen self.old.faults }
        ensures steady { (IsErrOf result FetchFault.Failed → ⊥) → self.new.faults ≡ self.old.faults }
    {
        if name.as_str() == STANDARD {
            let Some(stdin) = self.stdin.take() else {
                return Err(fail(&mut self.faults));
            };
            return Ok(Input::Standard(stdin));
        }
        match fs::open(self.rt, name.as_str()) {
            Ok(file) => Ok(Input::File(file)),
            Err(error) => match error.kind() {
                ErrorKind::NotFound => Err(FetchFault::NotThere),
                ErrorKind::OutOfMemory => Err(FetchFault::Memory),
                _ => Err(fail(&mut self.faults)),
            },
        }
    }
}

impl<'a, R: Files<File = File>> fv_io::Files for RealFiles<'a, R> {
    type Src = RealSource;

    ghost world = { λ _. None };

    ghost faults = { λ f. f.faults };

    ghost fetched = { λ f. f.fetched };

    ghost given = { λ f. f.given };

    fn fetch(&mut self, name: &Text) -> Result<RealSource, FetchFault> {
        if self.fetched == u64::MAX {
            return Err(fail(&mut self.faults));
        }
        let input = self.input_of(name)?;
        self.fetched += 1;
        self.given += 1;
        Ok(RealSource::new(input))
    }

    fn close(&mut self, source: RealSource) {
        self.given = self.given.saturating_sub(1);
        self.faults = self.faults.saturating_add(source.faults);
    }
}
