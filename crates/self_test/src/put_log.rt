// What was put so far. It exists only in proofs.
ghost use Rattle.std.specs.Prelude.{◌≡◌, ℕ, List, [], ◌++◌};
ghost use base.Fml.{ftrue};

use std::marker::Model;

/// The bytes that were put, one piece after the other.
#[derive(Drop)]
pub(crate) struct PutLog {
    ghost bytes: { List ℕ },
}

impl Model for PutLog {
    ghost also_owns = { λ _. ftrue };
}

/// A piece that is put.
#[derive(Clone, Copy, Drop)]
pub(crate) struct Piece<'a> {
    pub(crate) bytes: &'a [u8],
}

impl PutLog {
    pub(crate) fn new() -> PutLog
        ensures { result.bytes ≡ [] }
    {
        PutLog {}
    }

    #[inline(always)]
    pub(crate) fn and(&self, _piece: &Piece<'_>) -> PutLog
        ensures { result.bytes ≡ self.now.bytes ++ _piece.now.bytes.now }
    {
        PutLog {}
    }
}
