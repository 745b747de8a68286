// A sink that digests what is put.
ghost use Rattle.std.specs.Prelude.{◌≡◌, [], IfOk, Some, string_bytes};
ghost use Rattle.self_test.specs.Workload.{digest_line};

use crate::put_log::{Piece, PutLog};
use fv_io::{Failed, Sink};
use itoa::Buffer;
use sha2::{Digest, Sha256};
use std::alloc::{AllocError, Global};
use std::marker::Model;

/// A sink that digests what is put and keeps none of it. It fails only where its length would pass 2^64 - 1.
#[derive(Drop)]
pub struct DigestSink {
    hasher: Sha256,
    size: u64,
    faults: u64,
    log: PutLog,
}

impl Model for DigestSink {
    ghost use Rattle.self_test.specs.Workload.{DigestState, HasTaken};

    ghost Value = { DigestState };

    ghost view = { λ s. record { bytes = s.log.bytes; faults = s.faults } };

    ghost invariant = { λ s. HasTaken s.hasher s.size s.log.bytes };
}

impl DigestSink {
    /// A sink to which nothing was put.
    pub fn new() -> DigestSink
        ensures { result ≡ record { bytes = []; faults = 0 } }
    {
        DigestSink {
            hasher: Sha256::new(),
            size: 0,
            faults: 0,
            log: PutLog::new(),
        }
    }

    /// The line that tells a stream of so many frames, which was put: its length and its SHA-256.
    pub fn line(self, alloc: Global, frames: u32) -> Result<String, AllocError>
        ensures { IfOk result (λ line. string_bytes line ≡ digest_line frames self.bytes) }
    {
        let mut frame_digits = Buffer::new();
        let mut size_digits = Buffer::new();
        let size = size_digits.format(self.size);
        let digest = hex::encode(alloc, self.hasher.finalize().as_slice())?;
        [
            "frames ",
            frame_digits.format(frames),
            " bytes ",
            size,
            " sha256 ",
            digest.as_str(),
            "\n",
        ]
        .concat(alloc)
    }
}

impl Sink for DigestSink {
    ghost bytes = { λ s. Some s.bytes };

    ghost faults = { λ s. s.faults };

    fn put(&mut self, piece: &[u8]) -> Result<(), Failed> {
        match self.size.checked_add(piece.len() as u64) {
            Some(size) if self.faults == 0 => {
                self.hasher.update(piece);
                self.size = size;
                self.log = self.log.and(&Piece { bytes: piece });
                Ok(())
            }
            _ => {
                self.faults = self.faults.saturating_add(1);
                Err(Failed)
            }
        }
    }
}
