// `Files`: files by name, each fetched as a source and closed again.
ghost use Rattle.std.specs.Prelude.{◌≡◌, ◌≤◌, ◌+◌, ◌-◌, ℕ, Option, None, IfOk, OnOk, OnErr, IsErrOf};
ghost use Rattle.std.specs.FinMap.{get};
ghost use Rattle.fv_io.specs.Faults.{with_faults, HasRisen};
ghost use Rattle.fv_io.specs.World.{World, InWorld};

use crate::{Source, Text};

/// Why a file can't be read.
#[derive(Clone, Copy, Debug, PartialEq, Eq)]
pub enum FetchFault {
    /// There is no file of this name.
    NotThere,
    /// The outside failed: the files' count of faults rose.
    Failed,
    /// Out of memory.
    Memory,
}

/// Files by name. A source that was fetched is given back by `close`.
pub trait Files {
    type Src: Source + Send;

    /// The bytes of each name, where they tell them.
    ghost world: { Self → Option World };

    /// How often they failed, with the faults of the sources that were closed.
    ghost faults: { Self → ℕ };

    /// How many sources were ever fetched.
    ghost fetched: { Self → ℕ };

    /// How many sources were fetched and not closed yet.
    ghost given: { Self → ℕ };

    /// Opens the file of this name, at its first byte. The caller gives the source back by `close`. After an `Err` no
    /// source was opened.
    fn fetch(&mut self, name: &Text) -> Result<Self::Src, FetchFault>
        ensures given { OnOk result (given self.new ≡ given self.old + 1) }
        ensures not_given { OnErr result (given self.new ≡ given self.old) }
        ensures fetched { OnOk result (fetched self.new ≡ fetched self.old + 1) }
        ensures not_fetched { OnErr result (fetched self.new ≡ fetched self.old) }
        ensures start { IfOk result (λ source. Self.Src.place source ≡ 0) }
        ensures fresh { IfOk result (λ source. Self.Src.faults source ≡ 0) }
        ensures told { IfOk result (λ source. InWorld (world self.old) (λ told.
            Self.Src.bytes source ≡ get told name.now)) }
        ensures there { OnOk result (InWorld (world self.old) (λ told. get told name.now ≡ None → ⊥)) }
        ensures not_there { IsErrOf result FetchFault.NotThere →
            InWorld (world self.old) (λ told. get told name.now ≡ None) }
        ensures failed { IsErrOf result FetchFault.Failed → HasRisen (faults self.old) (faults self.new) }
        ensures later { faults self.old ≤ faults self.new }
        ensures steady { (IsErrOf result FetchFault.Failed → ⊥) → faults self.new ≡ faults self.old }
        ensures world { world self.new ≡ world self.old };

    /// Closes a source. Its faults count among those of the files from then on.
    fn close(&mut self, source: Self::Src)
        ensures given { given self.new ≡ given self.old - 1 }
        ensures fetched { fetched self.new ≡ fetched self.old }
        ensures faults { faults self.new ≡ with_faults (faults self.old) (Self.Src.faults source) }
        ensures world { world self.new ≡ world self.old };
}
