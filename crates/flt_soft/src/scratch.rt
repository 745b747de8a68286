// Rows that a filter keeps from frame to frame.
ghost use Rattle.std.specs.Prelude.{◌≡◌, ◌<◌, ◌+◌, ◌*◌, ◌≤◌, IfOk, MatchOption};
ghost use Rattle.flt_soft.specs.Scratch.{IsPadded};

use std::alloc::{AllocError, Global};
use std::marker::Model;

/// Rows for a filter of the group Soft to work in. What they hold matters to no frame. Contracts see how many samples
/// wide a picture may be for which it has room.
#[derive(Drop)]
pub struct Scratch {
    alloc: Global,
    width: usize,
    pub(crate) padded: Vec<u8>,
    pub(crate) sums: Vec<i32>,
    // For samples of two bytes.
    pub(crate) wide_padded: Vec<u16>,
    pub(crate) totals: Vec<u32>,
}

impl Model for Scratch {
    ghost use Rattle.std.specs.Prelude.{ℕ};
    ghost use Rattle.std.specs.Vec.{vec_len};
    ghost use Rattle.flt_soft.specs.Scratch.{HasRows};

    ghost Value = { ℕ };

    ghost view = { λ s. s.width };

    ghost invariant = { λ s. HasRows s.width (vec_len s.padded) (vec_len s.sums) (vec_len s.wide_padded)
        (vec_len s.totals) };
}

// How many samples a padded row has. Rows of fewer than three samples are padded elsewhere, so that a scratch stays small
// beside them.
fn padded_width(width: usize) -> usize
    requires { width ≤ 65535 }
    ensures { IsPadded width result }
{
    if width < 3 { width } else { width + 4 }
}

impl Scratch {
    /// No rows. It takes no memory.
    pub fn new(alloc: Global) -> Scratch
        ensures { result ≡ 0 }
    {
        Scratch {
            alloc,
            width: 0,
            padded: Vec::new(alloc),
            sums: Vec::new(alloc),
            wide_padded: Vec::new(alloc),
            totals: Vec::new(alloc),
        }
    }

    // The allocator of its rows.
    pub(crate) fn allocator(&self) -> Global {
        self.alloc
    }

    /// The bytes of its rows: at most as many as four rows of `u32` have.
    pub fn bytes(&self) -> u64
        requires { self.now ≤ 65535 }
        ensures narrow { self.now < 3 → result ≡ 11 * self.now }
        ensures padded { 3 ≤ self.now → result ≡ 11 * self.now + 12 }
        ensures few { result ≤ 16 * self.now }
    {
        let padded = self.padded.len() as u64 + 2 * self.wide_padded.len() as u64;
        padded + 4 * (self.sums.len() as u64 + self.totals.len() as u64)
    }

    // Rows of this width. An `Err` is out of memory.
    fn of_width(alloc: Global, width: usize) -> Result<Scratch, AllocError>
        requires some { 0 < width }
        requires wide { width ≤ 65535 }
        ensures { IfOk result (λ made. made ≡ width) }
    {
        let padded = padded_width(width);
        Ok(Scratch {
            alloc,
            width,
            padded: vec![in alloc; 0u8; padded]?,
            sums: vec![in alloc; 0i32; width]?,
            wide_padded: vec![in alloc; 0u16; padded]?,
            totals: vec![in alloc; 0u32; width]?,
        })
    }

    /// A scratch of this width, or `None` where this one has room for it. An `Err` is out of memory.
    pub(crate) fn wider(&self, width: usize) -> Result<Option<Scratch>, AllocError>
        requires { width ≤ 65535 }
        ensures { IfOk result (λ rows. MatchOption rows (width ≤ self.now) (λ rows. (self.now < width) × (rows ≡ width))) }
    {
        if width <= self.width {
            return Ok(None);
        }
        Ok(Some(Scratch::of_width(self.alloc, width)?))
    }
}
