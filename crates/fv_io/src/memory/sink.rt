// A sink in memory with a limit.
ghost use Rattle.std.specs.Prelude.{◌≡◌, ◌≤◌, ◌↔◌, IfOk, IsOk, OnOk, OnErr, Some};
ghost use Rattle.fv_io.specs.Faults.{risen};
ghost use Rattle.fv_io.specs.Told.{with_piece, GetsPrefix};
ghost use Rattle.fv_io.specs.SinkState.{empty, Fits, with_all, with_part};

use crate::{Failed, Sink};
use std::alloc::{AllocError, Global};
use std::marker::Model;

/// A sink in memory that holds up to a limit of bytes, and fails at a put that would pass it, and at each one after that.
#[derive(Drop)]
pub struct MemSink {
    bytes: Vec<u8>,
    limit: usize,
    faults: u64,
}

impl Model for MemSink {
    ghost use Rattle.std.specs.Prelude.{◌≤◌, length, vec_capacity};
    ghost use Rattle.fv_io.specs.SinkState.{SinkState};

    ghost Value = { SinkState };

    ghost view = { λ s. record { bytes = s.bytes.items; limit = s.limit; faults = s.faults } };

    ghost invariant = { λ s. (length s.bytes.items ≤ s.limit) × (s.limit ≤ vec_capacity s.bytes) };
}

impl MemSink {
    /// An empty sink with room for `limit` bytes. An `Err` means out of memory.
    pub fn new(alloc: Global, limit: usize) -> Result<MemSink, AllocError>
        ensures { IfOk result (λ sink. sink ≡ empty limit) }
    {
        Ok(MemSink {
            bytes: Vec::with_capacity(alloc, limit)?,
            limit,
            faults: 0,
        })
    }

    /// All bytes that were put.
    pub fn bytes(&self) -> &[u8]
        ensures { result.now ≡ self.now.bytes }
    {
        &self.bytes
    }

    /// How often it failed.
    pub fn faults(&self) -> u64
        ensures { result ≡ self.now.faults }
    {
        self.faults
    }
}

impl Sink for MemSink {
    ghost bytes = { λ s. Some s.bytes };

    ghost faults = { λ s. s.faults };

    fn put(&mut self, piece: &[u8]) -> Result<(), Failed>
        ensures put { OnOk result (Some self.new.bytes ≡ with_piece (Some self.old.bytes) piece.now) }
        ensures cut { OnErr result (GetsPrefix (Some self.old.bytes) (Some self.new.bytes) piece.now) }
        ensures unfailed { OnOk result (self.old.faults ≡ 0) }
        ensures steady { OnOk result (self.new.faults ≡ self.old.faults) }
        ensures later { self.old.faults ≤ self.new.faults }
        ensures failed { OnErr result (self.new.faults ≡ risen self.old.faults) }

        // A put fails exactly where one failed before or it would pass the limit, and then fills the sink up to it.
        ensures fits { IsOk result ↔ Fits self.old piece.now }
        ensures all { OnOk result (self.new ≡ with_all self.old piece.now) }
        ensures part { OnErr result (self.new ≡ with_part self.old piece.now) }
    {
        let room = self.limit - self.bytes.len();
        if self.faults == 0 && piece.len() <= room {
            match self.bytes.extend_from_slice(piece) {
                Ok(()) => Ok(()),
                Err(_) => unreachable!(),
            }
        } else {
            self.faults = self.faults.saturating_add(1);
            match self
                .bytes
                .extend_from_slice(&piece[..room.min(piece.len())])
            {
                Ok(()) => Err(Failed),
                Err(_) => unreachable!(),
            }
        }
    }
}
