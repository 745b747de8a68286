// A plane whose rows are being put. Rows that were not put are filled in where a later row needs them, or at the end.
ghost use Rattle.std.specs.Prelude.{◌≡◌, ◌<◌, ◌≤◌, ◌*◌, ◌^◌, ◌+◌, IfOk, None, unwrap_or};
ghost use Rattle.std.specs.Prelude.{[], ◌++◌, length, replicate, vec_capacity};
ghost use Rattle.fv_rows.specs.Rows.{IsPlane, IsPlaneLike, IsBuilding, rows_of, rows_put, width_of, bytes_put, filled_to, built_rows};

use crate::Plane;
use std::alloc::{AllocError, Global};
use std::marker::Model;
use std::sync::Arc;

/// What a plane of this size is put together in: this memory, where there is room in it, or new memory. An `Err` is out of
/// memory.
pub fn emptied(alloc: Global, memory: Option<Vec<u8>>, size: usize) -> Result<Vec<u8>, AllocError>
    ensures empty { IfOk result (λ bytes. bytes.items ≡ []) }
    ensures room { IfOk result (λ bytes. size ≤ vec_capacity bytes) }
{
    if let Some(memory) = memory {
        let mut bytes = memory;
        bytes.clear();
        if size <= bytes.capacity() {
            return Ok(bytes);
        }
    }
    Vec::with_capacity(alloc, size)
}

// Fills up to this size, for which there is room.
fn fill_up(bytes: &mut Vec<u8>, size: usize, filler: u8)
    requires fits { length bytes.old.items ≤ size }
    requires room { size ≤ vec_capacity bytes.old }
    ensures filled { bytes.new.items ≡ filled_to size filler bytes.old.items }
    ensures room { vec_capacity bytes.old ≤ vec_capacity bytes.new }
{
    match bytes.resize(size, filler) {
        Ok(()) => {}
        Err(_) => unreachable!(),
    }
}

// Appends rows, for which there is room.
fn append(bytes: &mut Vec<u8>, size: usize, rows: &[u8])
    requires fits { length bytes.old.items + length rows.now ≤ size }
    requires room { size ≤ vec_capacity bytes.old }
    ensures added { bytes.new.items ≡ bytes.old.items ++ rows.now }
    ensures room { size ≤ vec_capacity bytes.new }
{
    match bytes.extend_from_slice(rows) {
        Ok(()) => {}
        Err(_) => unreachable!(),
    }
}

/// Rows that are being put: the plane that is shared, or else the rows of the bytes and then rows of one value.
#[derive(Drop)]
pub struct PlaneBuilder {
    bytes: Vec<u8>,
    filler: u8,
    width: usize,
    height: usize,
    shared: Option<Plane>,
}

impl Model for PlaneBuilder {
    ghost use Rattle.std.specs.Prelude.{ℕ, List, vec_capacity, unwrap_or};
    ghost use Rattle.fv_rows.specs.Rows.{IsBuilding, built_rows};

    ghost Value = { List (List ℕ) };

    ghost view = { λ p. unwrap_or p.shared (built_rows p.width p.height p.filler p.bytes.items) };

    ghost invariant = { λ p. IsBuilding p.bytes.items (vec_capacity p.bytes) p.width p.height p.shared };
}

// Puts rows in place of others.
fn put_in(bytes: &mut [u8], width: usize, height: usize, y: usize, count: usize, rows: &[u8])
    requires whole { length bytes.old ≡ height * width }
    requires inside { y + count ≤ height }
    requires rows { length rows.now ≡ count * width }
    ensures { rows_of bytes.new width width height
        ≡ rows_put (rows_of bytes.old width width height) y (rows_of rows.now width width count) }
{
    let at = y * width;
    bytes[at..at + count * width].copy_from_slice(rows);
}

// Puts rows in their place. At or below the end of the bytes they are appended, after the gap is filled.
fn put_at(
    bytes: &mut Vec<u8>,
    filler: u8,
    width: usize,
    height: usize,
    y: usize,
    count: usize,
    rows: &[u8],
)
    requires fits { length bytes.old.items ≤ height * width }
    requires room { height * width ≤ vec_capacity bytes.old }
    requires small { height * width < 2 ^ 32 }
    requires inside { y + count ≤ height }
    requires rows { length rows.now ≡ count * width }
    ensures put { built_rows width height filler bytes.new.items
        ≡ rows_put (built_rows width height filler bytes.old.items) y (rows_of rows.now width width count) }
    ensures fits { length bytes.new.items ≤ height * width }
    ensures room { height * width ≤ vec_capacity bytes.new }
{
    let at = y * width;
    if bytes.len() <= at {
        fill_up(bytes, at, filler);
        append(bytes, height * width, rows);
    } else {
        fill_up(bytes, height * width, filler);
        put_in(bytes, width, height, y, count, rows);
    }
}

// Copies the rows of a plane, for which there is room.
fn copy_rows(bytes: &mut Vec<u8>, width: usize, height: usize, plane: &Plane)
    requires like { IsPlane width height plane.now }
    requires room { height * width ≤ vec_capacity bytes.old }
    requires small { height * width < 2 ^ 32 }
    ensures rows { rows_of bytes.new.items width width height ≡ plane.now }
    ensures full { length bytes.new.items ≡ height * width }
    ensures room { height * width ≤ vec_capacity bytes.new }
{
    bytes.clear();
    for y in 0..height {
        append(bytes, height * width, plane.row(y));
    }
}

// Copies the rows of the plane that is shared, where there is one.
fn unshare(bytes: &mut Vec<u8>, shared: Option<Plane>, filler: u8, width: usize, height: usize)
    requires { IsBuilding bytes.old.items (vec_capacity bytes.old) width height shared }
    ensures rows { built_rows width height filler bytes.new.items
        ≡ unwrap_or shared (built_rows width height filler bytes.old.items) }
    ensures kept { IsBuilding bytes.new.items (vec_capacity bytes.new) width height None }
{
    if let Some(plane) = shared {
        copy_rows(bytes, width, height, &plane);
    }
}

impl PlaneBuilder {
    /// One value everywhere, in this memory if it has room. What the memory holds has no meaning. An `Err` is out of memory.
    pub fn new(
        alloc: Global,
        memory: Option<Vec<u8>>,
        width: usize,
        height: usize,
        value: u8,
    ) -> Result<PlaneBuilder, AllocError>
        requires { height * width < 2 ^ 32 }
        ensures { IfOk result (λ plane. plane ≡ replicate height (replicate width value)) }
    {
        Ok(PlaneBuilder {
            bytes: emptied(alloc, memory, height * width)?,
            filler: value,
            width,
            height,
            shared: None,
        })
    }

    /// Puts the bytes of `count` rows that lie side by side in the places from row `y` on. The other rows stay.
    pub fn put_rows(&mut self, y: usize, count: usize, rows: &[u8])
        requires inside { y + count ≤ length self.old }
        requires whole { length rows.now ≡ count * width_of self.old }
        ensures { self.new ≡ bytes_put self.old y count rows.now }
    {
        unshare(
            &mut self.bytes,
            self.shared.take(),
            self.filler,
            self.width,
            self.height,
        );
        put_at(
            &mut self.bytes,
            self.filler,
            self.width,
            self.height,
            y,
            count,
            rows,
        );
    }

    /// Shares a plane of equal sizes.
    pub fn put_plane(&mut self, plane: Plane)
        requires { IsPlaneLike self.old plane }
        ensures { self.new ≡ plane }
    {
        self.shared = Some(plane);
    }

    /// The rows as a plane, which keeps their bytes. An `Err` is out of memory.
    pub fn finish(self, alloc: Global) -> Result<Plane, AllocError>
        ensures { IfOk result (λ plane. plane ≡ self) }
    {
        let PlaneBuilder {
            mut bytes,
            filler,
            width,
            height,
            shared,
        } = self;
        if let Some(plane) = shared {
            return Ok(plane);
        }
        fill_up(&mut bytes, height * width, filler);
        Ok(Plane::new(Arc::new(alloc, bytes)?, 0, width, height))
    }
}
