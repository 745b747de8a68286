// `Stop`: why a part of a run ends early, as a text knows it that runs.
ghost use Rattle.std.specs.Prelude.{◌≡◌};
ghost use Rattle.avs_state.specs.Stops.{named};

use avs_meaning::{EvalError, ScriptKind};
use fv_io::Text;
use std::alloc::{AllocError, AllocFailed};

/// Why a part of a run ends early, within one text.
#[derive(Drop, Debug)]
pub enum Stop {
    /// A fault at a line of the text that runs. It holds no name, so that it takes no memory.
    Fault(ScriptKind, u32),
    /// What has its name, or needs none: a fault of another text or of a file, a failed read, or out of memory.
    Whole(EvalError),
}

impl Stop {
    /// The stop as it is told outside of the text of this name.
    pub fn named(self, name: Text) -> EvalError
        ensures { result ≡ named name self }
    {
        match self {
            Stop::Fault(kind, line) => EvalError::Fault { kind, name, line },
            Stop::Whole(stop) => stop,
        }
    }
}

impl From<EvalError> for Stop {
    ghost use Rattle.avs_state.specs.declared.stop.Stop.TheVariants.{Whole};

    ghost from_gives = { λ whole stop. stop ≡ Whole whole };

    fn from(whole: EvalError) -> Stop {
        Stop::Whole(whole)
    }
}

impl From<AllocError> for Stop {
    ghost use Rattle.avs_meaning.specs.declared.stop.EvalError.TheVariants.{Memory};
    ghost use Rattle.avs_state.specs.declared.stop.Stop.TheVariants.{Whole};

    ghost from_gives = { λ _ stop. stop ≡ Whole Memory };

    fn from(_: AllocError) -> Stop {
        Stop::Whole(EvalError::Memory)
    }
}

impl<T: Drop> From<AllocFailed<T>> for Stop {
    ghost use Rattle.avs_meaning.specs.declared.stop.EvalError.TheVariants.{Memory};
    ghost use Rattle.avs_state.specs.declared.stop.Stop.TheVariants.{Whole};

    ghost from_gives = { λ _ stop. stop ≡ Whole Memory };

    fn from(_: AllocFailed<T>) -> Stop {
        Stop::Whole(EvalError::Memory)
    }
}
