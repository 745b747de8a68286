// `Stop`: why a run ends early, with its exit status, and `FileFault`.
ghost use Rattle.std.specs.Prelude.{◌≡◌};
ghost use Rattle.serve_text.specs.StopKinds.{status_of_stop};

use avs_meaning::{EvalError, InputFault, ScriptKind};
use fv_io::Text;
use std::alloc::AllocError;

/// Why a file can't be read as a list of requests, or as a journal.
#[derive(Clone, Copy, Debug, PartialEq, Eq)]
pub enum FileFault {
    /// There is no file of this name.
    NotThere,
    /// A line of a list has too many bytes.
    LineTooLong,
    /// A list has too many lines.
    TooManyLines,
    /// A journal has too many bytes.
    JournalTooLong,
}

impl FileFault {
    ghost use Rattle.std.specs.Prelude.{◌≡◌};
    ghost use Rattle.serve_text.specs.Lines.{file_kind};

    /// The name of the fault as it is printed.
    pub fn name(self) -> &'static str
        ensures { result.now ≡ file_kind self }
    {
        match self {
            FileFault::NotThere => "NotThere",
            FileFault::LineTooLong => "LineTooLong",
            FileFault::TooManyLines => "TooManyLines",
            FileFault::JournalTooLong => "JournalTooLong",
        }
    }
}

/// Why a render ends early.
#[derive(Drop)]
pub enum Stop {
    /// The text of this name has this fault, at this line.
    Script {
        kind: ScriptKind,
        name: Text,
        line: u32,
    },
    /// The file of this name is no clip.
    Input {
        name: Text,
        fault: InputFault,
    },
    /// The bytes of the file of this name ended at `got` when they were read again, before `want`, the offset just past the
    /// frame.
    Changed {
        name: Text,
        frame: u32,
        want: u64,
        got: u64,
    },
    /// The file of this name is no list of requests, or no text for a journal.
    File {
        name: Text,
        fault: FileFault,
    },
    /// A read failed.
    Read,
    /// A write failed.
    Write,
    /// Out of memory.
    Memory,
}

impl Stop {
    /// The exit status that it ends with.
    pub fn status(&self) -> u8
        ensures { result ≡ status_of_stop self.now }
    {
        match self {
            Stop::Script { .. } => 2,
            Stop::Input { .. } => 3,
            Stop::Changed { .. } => 3,
            Stop::File { .. } => 3,
            Stop::Read => 4,
            Stop::Write => 5,
            Stop::Memory => 6,
        }
    }
}

impl From<EvalError> for Stop {
    ghost use Rattle.std.specs.Prelude.{◌≡◌};
    ghost use Rattle.serve_text.specs.StopKinds.{stop_of};

    ghost from_gives = { λ of stop. stop ≡ stop_of of };

    fn from(of: EvalError) -> Stop {
        match of {
            EvalError::Fault { kind, name, line } => Stop::Script { kind, name, line },
            EvalError::Input { name, fault } => Stop::Input { name, fault },
            EvalError::Read => Stop::Read,
            EvalError::Memory => Stop::Memory,
        }
    }
}

impl From<AllocError> for Stop {
    ghost use Rattle.serve_text.specs.declared.stop.Stop.TheVariants.{Memory};

    ghost from_gives = { λ _ stop. stop ≡ Memory };

    fn from(_: AllocError) -> Stop {
        Stop::Memory
    }
}
