// The files that a host holds.
ghost use Rattle.std.specs.Prelude.{◌≡◌};

use fv_io::{FetchFault, Files, Source, Text};
use std::marker::Brand;

/// Files by name, as `fv_io::Files`, which a host holds. Where they are lent, they know which borrow they hold.
pub trait HeldFiles {
    ghost use Rattle.std.specs.Prelude.{◌≡◌, ◌≤◌, ◌+◌, ◌-◌, ℕ, Option, None, IfOk, OnOk, OnErr, IsErrOf};
    ghost use Rattle.std.specs.FinMap.{get};
    ghost use Rattle.fv_io.specs.Faults.{with_faults, HasRisen};
    ghost use Rattle.fv_io.specs.World.{World, InWorld};

    type Src: Source;

    /// The bytes of each name, where they tell them.
    ghost world: { Self → Option World };

    /// How often they failed, with the faults of the sources that were closed.
    ghost faults: { Self → ℕ };

    /// How many sources were ever fetched.
    ghost fetched: { Self → ℕ };

    /// How many sources were fetched and not closed yet.
    ghost given: { Self → ℕ };

    /// The borrow that they hold, if they hold one.
    ghost borrow: { Self → ℕ };

    /// Opens the file of this name, at its first byte.
    fn fetch(&mut self, name: &Text) -> Result<Self::Src, FetchFault>
        ensures given { OnOk result (given self.new ≡ given self.old + 1) }
        ensures not_given { OnErr result (given self.new ≡ given self.old) }
        ensures fetched { OnOk result (fetched self.new ≡ fetched self.old + 1) }
        ensures not_fetched { OnErr result (fetched self.new ≡ fetched self.old) }
        ensures start { IfOk result (λ source. Self.Src.place source ≡ 0) }
        ensures fresh { IfOk result (λ source. Self.Src.faults source ≡ 0) }
        ensures told { IfOk result (λ source. InWorld (world self.old) (λ told.
            Self.Src.bytes source ≡ get told name.now)) }
        ensures there { OnOk result (InWorld (world self.old) (λ told. get told name.now ≡ None → ⊥)) }
        ensures not_there { IsErrOf result FetchFault.NotThere →
            InWorld (world self.old) (λ told. get told name.now ≡ None) }
        ensures failed { IsErrOf result FetchFault.Failed → HasRisen (faults self.old) (faults self.new) }
        ensures later { faults self.old ≤ faults self.new }
        ensures steady { (IsErrOf result FetchFault.Failed → ⊥) → faults self.new ≡ faults self.old }
        ensures world { world self.new ≡ world self.old }
        ensures borrow { borrow self.new ≡ borrow self.old };

    /// Closes a source. Its faults count among those of the files from then on.
    fn close(&mut self, source: Self::Src)
        ensures given { given self.new ≡ given self.old - 1 }
        ensures fetched { fetched self.new ≡ fetched self.old }
        ensures faults { faults self.new ≡ with_faults (faults self.old) (Self.Src.faults source) }
        ensures world { world self.new ≡ world self.old }
        ensures borrow { borrow self.new ≡ borrow self.old };
}

/// The files of a caller, lent to a host.
pub struct Lent<'f, F: Files> {
    pub files: &'f mut F,
}

impl<'f, F: Files> HeldFiles for Lent<'f, F> {
    type Src = F::Src;

    ghost world = { λ lent. F.world lent.files.now };

    ghost faults = { λ lent. F.faults lent.files.now };

    ghost fetched = { λ lent. F.fetched lent.files.now };

    ghost given = { λ lent. F.given lent.files.now };

    ghost borrow = { λ lent. lent.files.ghost_name };

    fn fetch(&mut self, name: &Text) -> Result<F::Src, FetchFault> {
        self.files.fetch(name)
    }

    fn close(&mut self, source: F::Src) {
        self.files.close(source);
    }
}

/// What is known of the files of one run, as a type.
pub trait Known {
    ghost use Rattle.std.specs.Prelude.{ℕ, Bool};
    ghost use Rattle.fv_io.specs.World.{World};

    /// Whether the files tell their bytes.
    ghost told: { Bool };

    /// The bytes of each name, where they are told.
    ghost world: { World };

    /// How many sources were open before the run.
    ghost given: { ℕ };

    /// The borrow that the files hold, if they hold one.
    ghost borrow: { ℕ };
}

impl Known for Brand {
    ghost use Rattle.std.specs.Prelude.{false};
    ghost use Rattle.std.specs.FinMap.{empty};

    ghost told = { false };

    ghost world = { empty };

    ghost given = { 0 };

    ghost borrow = { 0 };
}
