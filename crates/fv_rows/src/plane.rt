// A plane is its rows of bytes, inside shared bytes, with an offset and a stride, seen from the top or from the bottom.
ghost use Rattle.std.specs.Prelude.{◌≡◌, ◌<◌, ◌≤◌, ◌*◌, ◌+◌, ◌-◌, ◌%◌, IfOk, IfSome};
ghost use Rattle.std.specs.Prelude.{[], length, reverse, slice_index_or, take, drop};
ghost use Rattle.std.specs.Arc.{arc_value};
ghost use Rattle.fv_rows.specs.Rows.{LiesIn, every_second, flat_rows, first_stored, rows_of, rows_part, second_stored, width_of};

use std::alloc::{AllocError, Global};
use std::marker::Model;
use std::sync::Arc;

// One row of some bytes.
fn row_in(bytes: &[u8], offset: usize, stride: usize, width: usize, y: usize) -> &[u8]
    requires { offset + y * stride + width ≤ length bytes.now }
    ensures { result.now ≡ take width (drop (offset + y * stride) bytes.now) }
{
    let at = offset + y * stride;
    &bytes[at..at + width]
}

// The bytes from a row to the last one, where no bytes lie between rows.
fn rows_in(bytes: &[u8], offset: usize, width: usize, height: usize, y: usize) -> &[u8]
    requires inside { y < height }
    requires whole { offset + height * width ≤ length bytes.now }
    ensures { result.now ≡ take ((height - y) * width) (drop (offset + y * width) bytes.now) }
{
    let at = offset + y * width;
    let size = (height - y) * width;
    &bytes[at..at + size]
}

// Where some rows that are seen from row `y` on begin, among rows that are stored from the top.
fn first_stored(upwards: bool, height: usize, y: usize, count: usize) -> usize
    requires { y + count ≤ height }
    ensures { result ≡ first_stored upwards height y count }
{
    if upwards { height - y - count } else { y }
}

// Where every second row that is seen begins, among an even number of rows that are stored from the top.
fn second_stored(upwards: bool, from: usize) -> usize
    requires { from < 2 }
    ensures { result ≡ second_stored upwards from }
{
    if upwards { 1 - from } else { from }
}

/// Rows inside shared bytes. If they run `upwards`, the last one in the bytes is the first one of the plane.
#[derive(Drop)]
pub struct Plane {
    bytes: Arc<Vec<u8>>,
    offset: usize,
    stride: usize,
    width: usize,
    height: usize,
    upwards: bool,
}

impl Model for Plane {
    ghost use Rattle.std.specs.Prelude.{ℕ, List, ◌+◌, ◌*◌, ◌<◌, ◌≤◌, length, drop};
    ghost use Rattle.std.specs.Arc.{arc_value};
    ghost use Rattle.fv_rows.specs.Rows.{rows_of, seen};

    ghost Value = { List (List ℕ) };

    ghost view = { λ p. seen p.upwards
        (rows_of (drop p.offset (arc_value p.bytes).items) p.stride p.width p.height) };

    ghost invariant = { λ p. ((y : ℕ) → y < p.height → p.offset + y * p.stride + p.width ≤ length (arc_value p.bytes).items)
        × (p.height * p.width ≤ length (arc_value p.bytes).items) };
}

impl Plane {
    /// The plane of `height` rows of `width` bytes, which begin at `offset` and have no bytes between them.
    #[tactic(auto, using(crate::proofs::SeenLemmas::seen_down))]
    pub fn new(bytes: Arc<Vec<u8>>, offset: usize, width: usize, height: usize) -> Plane
        requires { offset + height * width ≤ length (arc_value bytes).items }
        ensures { result ≡ rows_of (drop offset (arc_value bytes).items) width width height }
    {
        Plane {
            bytes,
            offset,
            stride: width,
            width,
            height,
            upwards: false,
        }
    }

    /// The bytes of a row.
    pub fn row(&self, y: usize) -> &[u8]
        requires { y < length self.now }
        ensures { result.now ≡ slice_index_or self.now y [] }
    {
        row_in(
            self.bytes.as_slice(),
            self.offset,
            self.stride,
            self.width,
            first_stored(self.upwards, self.height, y, 1),
        )
    }

    /// The bytes of rows from `y` on with no bytes between them, and the number of these rows: all of them where the
    /// stride is the width and the rows don't run upwards.
    pub fn rows_from(&self, y: usize) -> (&[u8], usize)
        requires { y < length self.now }
        ensures some { 0 < result.1 }
        ensures inside { y + result.1 ≤ length self.now }
        ensures rows { result.0.now ≡ flat_rows (take result.1 (drop y self.now)) }
    {
        if self.upwards || self.stride != self.width {
            return (self.row(y), 1);
        }
        let bytes = rows_in(
            self.bytes.as_slice(),
            self.offset,
            self.width,
            self.height,
            y,
        );
        (bytes, self.height - y)
    }

    /// An equal plane over the same bytes. An `Err` is more shares than can be counted.
    pub fn share(&self) -> Result<Plane, AllocError>
        ensures { IfOk result (λ plane. plane ≡ self.now) }
    {
        Ok(Plane {
            bytes: Arc::try_clone(&self.bytes)?,
            offset: self.offset,
            stride: self.stride,
            width: self.width,
            height: self.height,
            upwards: self.upwards,
        })
    }

    /// The rows from the bottom up, over the same bytes. An `Err` is more shares than can be counted.
    #[tactic(auto, using(crate::proofs::SeenLemmas::seen_flipped))]
    pub fn flipped(&self) -> Result<Plane, AllocError>
        ensures { IfOk result (λ plane. plane ≡ reverse self.now) }
    {
        Ok(Plane {
            bytes: Arc::try_clone(&self.bytes)?,
            offset: self.offset,
            stride: self.stride,
            width: self.width,
            height: self.height,
            upwards: !self.upwards,
        })
    }

    /// The part of `width` bytes of `height` rows, from byte `x` of row `y` on, over the same bytes. An `Err` is more shares
    /// than can be counted.
    pub fn window(
        &self,
        x: usize,
        y: usize,
        width: usize,
        height: usize,
    ) -> Result<Plane, AllocError>
        requires some { 0 < height }
        requires across { x + width ≤ width_of self.now }
        requires down { y + height ≤ length self.now }
        ensures { IfOk result (λ plane. plane ≡ rows_part self.now x y width height) }
    {
        // The part lies inside the bytes, whose number fits, so its offset fits too.
        let _ = self.bytes.len();
        let first = first_stored(self.upwards, self.height, y, height);
        Ok(Plane {
            bytes: Arc::try_clone(&self.bytes)?,
            offset: self.offset + first * self.stride + x,
            stride: self.stride,
            width,
            height,
            upwards: self.upwards,
        })
    }

    /// Every second row, from the first one (`from` is 0) or from the one after it (1), over the same bytes. An `Err` is more
    /// shares than can be counted.
    pub fn every_second(&self, from: usize) -> Result<Plane, AllocError>
        requires first { from < 2 }
        requires some { 0 < length self.now }
        requires even { length self.now % 2 ≡ 0 }
        ensures { IfOk result (λ plane. plane ≡ every_second from self.now) }
    {
        // The plane has two rows at least, so twice the stride fits.
        let _ = self.bytes.len();
        let first = second_stored(self.upwards, from);
        Ok(Plane {
            bytes: Arc::try_clone(&self.bytes)?,
            offset: self.offset + first * self.stride,
            stride: 2 * self.stride,
            width: self.width,
            height: self.height / 2,
            upwards: self.upwards,
        })
    }

    /// The allocator of its bytes.
    pub fn allocator(&self) -> Global {
        let bytes: &Vec<u8> = &self.bytes;
        *bytes.allocator()
    }

    /// The bytes that the plane lies in, where nothing else shares them. There are at least as many as its rows have.
    #[tactic(auto, using(crate::proofs::SeenLemmas::rows_large))]
    pub fn into_vec(self) -> Option<Vec<u8>>
        ensures { IfSome result (λ bytes. LiesIn bytes.items self) }
    {
        Arc::try_unwrap(self.bytes).ok()
    }
}
