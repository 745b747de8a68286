// Why a script has no value, as the code knows it.
ghost use Rattle.std.specs.Prelude.{◌≡◌};

use crate::{InputFault, ScriptKind};
use fv_io::Text;
use std::alloc::{AllocError, AllocFailed};

/// Why there is no value.
#[derive(Drop, Debug)]
pub enum EvalError {
    /// A fault at a line of the text of this name.
    Fault {
        kind: ScriptKind,
        name: Text,
        line: u32,
    },
    /// The file of this name is no clip.
    Input {
        name: Text,
        fault: InputFault,
    },
    /// A file could not be read.
    Read,
    /// Out of memory.
    Memory,
}

impl From<AllocError> for EvalError {
    ghost use Rattle.avs_meaning.specs.declared.stop.EvalError.TheVariants.{Memory};

    ghost from_gives = { λ _ stop. stop ≡ Memory };

    fn from(_: AllocError) -> EvalError {
        EvalError::Memory
    }
}

impl<T: Drop> From<AllocFailed<T>> for EvalError {
    ghost use Rattle.avs_meaning.specs.declared.stop.EvalError.TheVariants.{Memory};

    ghost from_gives = { λ _ stop. stop ≡ Memory };

    fn from(_: AllocFailed<T>) -> EvalError {
        EvalError::Memory
    }
}
