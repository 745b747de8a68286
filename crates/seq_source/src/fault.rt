// Faults of a source of frames.
use fv_io::Failed;
use std::alloc::{AllocError, AllocFailed};

/// Why a frame isn't given.
#[derive(Clone, Copy, Debug, PartialEq, Eq)]
pub enum SeqFault {
    /// The source failed: its count of faults rose in the call.
    Read,
    /// The bytes end at offset `got`, before `want`, the offset just past the frame. So they aren't those that were
    /// indexed.
    Changed { frame: u32, want: u64, got: u64 },
    /// Out of memory.
    Memory,
}

impl From<Failed> for SeqFault {
    ghost use Rattle.std.specs.Prelude.{◌≡◌};
    ghost use Rattle.seq_source.specs.declared.fault.SeqFault.TheVariants.{Read};

    ghost from_gives = { λ _ fault. fault ≡ Read };

    fn from(_: Failed) -> SeqFault {
        SeqFault::Read
    }
}

impl From<AllocError> for SeqFault {
    ghost use Rattle.std.specs.Prelude.{◌≡◌};
    ghost use Rattle.seq_source.specs.declared.fault.SeqFault.TheVariants.{Memory};

    ghost from_gives = { λ _ fault. fault ≡ Memory };

    fn from(_: AllocError) -> SeqFault {
        SeqFault::Memory
    }
}

impl<T: Drop> From<AllocFailed<T>> for SeqFault {
    ghost use Rattle.std.specs.Prelude.{◌≡◌};
    ghost use Rattle.seq_source.specs.declared.fault.SeqFault.TheVariants.{Memory};

    ghost from_gives = { λ _ fault. fault ≡ Memory };

    fn from(_: AllocFailed<T>) -> SeqFault {
        SeqFault::Memory
    }
}
