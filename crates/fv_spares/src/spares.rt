// Spare memory.
ghost use Rattle.std.specs.Prelude.{◌≡◌, ◌+◌, ◌*◌, ◌<◌, ◌≤◌, ◌↔◌, [], ℕ, length, None, IfSome, IsTrue};
ghost use Rattle.fv_plane.specs.Format.{plane_bytes};
ghost use Rattle.fv_spares.specs.Spares.{sizes_of, HasKept, HaveBytes, Serves, Takes, TakesLuma, TakesChroma, HasPlane};

use fv_plane::{Frame, FrameMemory, Shape};
use std::alloc::Global;
use std::marker::Model;

/// At most so many pieces are kept of frames that were read, or of luma.
const MOST: usize = 16;

/// At most so many pieces are kept of chroma.
const MOST_CHROMA: usize = 32;

/// A piece may have so many bytes more than it is to serve for, as one has that holds what lies before a frame, too.
const MORE: usize = 1 << 13;

/// The memory of frames that are no longer needed, at most that of 16 frames. What it holds has no meaning. A frame that was
/// read is one piece, and one that was made a piece for each plane.
///
/// New memory costs more: the system gives it page by page, and it is zeroed before a frame can be read into it.
#[derive(Drop)]
pub struct Spares {
    luma: Vec<Vec<u8>>,
    chroma: Vec<Vec<u8>>,
}

impl Model for Spares {
    ghost use Rattle.std.specs.Prelude.{◌≤◌, length};
    ghost use Rattle.fv_spares.specs.Spares.{SpareSizes, sizes_of};

    ghost Value = { SpareSizes };

    ghost view = { λ s. record { luma = sizes_of s.luma.items; chroma = sizes_of s.chroma.items } };

    ghost invariant = { λ s. (length s.luma.items ≤ 16) × (length s.chroma.items ≤ 32) };
}

// Whether a piece serves for `size` bytes. A larger one may serve for another frame.
fn serves(piece: &[u8], size: usize) -> bool
    ensures { IsTrue result ↔ Serves size (length piece.now) }
{
    size <= piece.len() && piece.len() - size <= MORE
}

// Takes the piece out that serves for `size` bytes and was kept last.
fn take_from(pieces: &mut Vec<Vec<u8>>, size: usize) -> Option<Vec<u8>>
    ensures { Takes size result (sizes_of pieces.old.items) (sizes_of pieces.new.items) }
{
    let mut at = pieces.len();
    while at > 0 {
        at -= 1;
        if serves(&pieces[at], size) {
            return Some(pieces.remove(at));
        }
    }
    None
}

// Keeps a piece, if there is one. Where there are `most` pieces, the one that was kept first is let go.
fn keep_in(pieces: &mut Vec<Vec<u8>>, most: usize, piece: Option<Vec<u8>>)
    requires bounded { length pieces.old.items ≤ most }
    ensures bounded { length pieces.new.items ≤ most }
    ensures kept { (bytes : ℕ) → IfSome piece (λ it. bytes ≤ length it.items)
        → HasKept most 1 bytes (sizes_of pieces.old.items) (sizes_of pieces.new.items) }
{
    let Some(piece) = piece else {
        return;
    };
    // Where there is no memory for the list itself, the piece is let go.
    let Ok(()) = pieces.push(piece) else {
        return;
    };
    if pieces.len() > most {
        pieces.remove(0);
    }
}

impl Spares {
    /// No memory yet. It takes none.
    pub fn new(alloc: Global) -> Spares
        ensures { result ≡ record { luma = []; chroma = [] } }
    {
        Spares {
            luma: Vec::new(alloc),
            chroma: Vec::new(alloc),
        }
    }

    /// The number of pieces.
    pub fn len(&self) -> usize
        ensures len { result ≡ length self.now.luma + length self.now.chroma }

        // What is true of all spare memory.
        ensures luma { length self.now.luma ≤ 16 }
        ensures chroma { length self.now.chroma ≤ 32 }
    {
        self.luma.len() + self.chroma.len()
    }

    /// Keeps the memory of those planes of a frame that no other frame shares, as it is. Where there is memory of 16 frames,
    /// what was kept first is let go.
    pub fn keep(&mut self, frame: Frame)
        ensures luma { HasKept 16 1 (plane_bytes frame.shape 0) self.old.luma self.new.luma }
        ensures chroma { HasKept 32 2 (plane_bytes frame.shape 1) self.old.chroma self.new.chroma }
    {
        let FrameMemory { luma, u, v } = frame.into_memory();
        keep_in(&mut self.luma, MOST, luma);
        keep_in(&mut self.chroma, MOST_CHROMA, u);
        keep_in(&mut self.chroma, MOST_CHROMA, v);
    }

    /// Keeps the memory of each of these frames, as `keep` does.
    pub fn keep_all(&mut self, frames: Vec<Option<Frame>>)
        ensures luma { (bytes : ℕ) → HaveBytes 0 bytes frames.items
            → HasKept 16 (length frames.items) bytes self.old.luma self.new.luma }
        ensures chroma { (bytes : ℕ) → HaveBytes 1 bytes frames.items
            → HasKept 32 (2 * length frames.items) bytes self.old.chroma self.new.chroma }
    {
        // Called for what its contract says.
        self.len();
        for frame in frames {
            if let Some(frame) = frame {
                self.keep(frame);
            }
        }
    }

    /// Hands out the piece that has at least `size` bytes, and at most 8 KiB more, and was kept last. `None` comes where
    /// there is none.
    pub fn take(&mut self, size: usize) -> Option<Vec<u8>>
        ensures { TakesLuma size result self.old self.new }
    {
        take_from(&mut self.luma, size)
    }

    /// Hands out memory for a plane of a frame, as `take` does. A plane or a shape that no frame has gets none.
    pub fn take_plane(&mut self, shape: Shape, plane: u32) -> Option<Vec<u8>>
        ensures luma { HasPlane shape plane → plane ≡ 0 → TakesLuma (plane_bytes shape 0) result self.old self.new }
        ensures chroma { HasPlane shape plane → 0 < plane
            → TakesChroma (plane_bytes shape plane) result self.old self.new }
        ensures none { (HasPlane shape plane → ⊥) → (result ≡ None) × (self.new ≡ self.old) }
    {
        if !shape.is_legal() || plane >= shape.kind.planes() {
            return None;
        }
        let size = shape.plane_bytes(plane) as usize;
        if plane == 0 {
            take_from(&mut self.luma, size)
        } else {
            take_from(&mut self.chroma, size)
        }
    }
}
