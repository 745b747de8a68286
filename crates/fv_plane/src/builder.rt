// A frame that is being written.
ghost use Rattle.std.specs.Prelude.{◌≡◌, ◌<◌, ◌≤◌, ◌+◌, ◌*◌, IfOk, OnOk, OnErr, [], ◌^◌, map, length, replicate, slice_index_or, slice_set};
ghost use Rattle.fv_plane.specs.Format.{IsLegal, HasSamePlane, planes, plane_width, plane_height, row_bytes};
ghost use Rattle.fv_rows.specs.Rows.{IsPlaneLike, width_of, bytes_put};
ghost use Rattle.fv_plane.specs.Picture.{IsPicture, with_row, with_rows, blank, plain_plane as of_one_value, plain_chroma as of_one_colour, row_of_bytes, rows_of_bytes, decoded_rows, chroma_list, plane_list, plane_of, wide_bytes, FitBytes, AreWhole, AllWhole};

use crate::{Colour, Frame, FrameMemory, Shape, write_samples};
use fv_rows::{Plane, PlaneBuilder};
use std::alloc::{AllocError, Global};
use std::marker::Model;

/// A picture that is being written, in any order. It is fastest from the top down, plane by plane: a row that is put
/// above an earlier one first fills the rest of its plane.
#[derive(Drop)]
pub struct FrameBuilder {
    alloc: Global,
    shape: Shape,
    luma: PlaneBuilder,
    chroma: Option<(PlaneBuilder, PlaneBuilder)>,
}

impl Model for FrameBuilder {
    ghost use Rattle.fv_plane.specs.Picture.{Picture, frame_of, IsStored};

    ghost Value = { Picture };

    ghost view = { λ f. frame_of f.shape f.luma f.chroma };

    ghost invariant = { λ f. IsStored f.shape f.luma f.chroma };
}

// The bytes of a row of one value, of samples of two bytes.
fn plain_row(alloc: Global, width: usize, value: u16) -> Result<Vec<u8>, AllocError>
    requires { width < 65536 }
    ensures { IfOk result (λ row. row.items ≡ wide_bytes (replicate width value)) }
{
    let samples = vec![in alloc; value; width]?;
    let mut bytes = vec![in alloc; 0u8; width * 2]?;
    write_samples(samples.as_slice(), bytes.as_mut_slice());
    Ok(bytes)
}

// A plane all of whose rows are this one.
fn repeated(
    alloc: Global,
    memory: Option<Vec<u8>>,
    height: usize,
    row: &[u8],
) -> Result<PlaneBuilder, AllocError>
    requires { height * length row.now < 2 ^ 32 }
    ensures { IfOk result (λ plane. plane ≡ replicate height row.now) }
{
    let mut made = PlaneBuilder::new(alloc, memory, row.len(), height, 0)?;
    for y in 0..height {
        made.put_rows(y, 1, row);
    }
    Ok(made)
}

// A plane of one value.
fn plain_plane(
    alloc: Global,
    memory: Option<Vec<u8>>,
    shape: Shape,
    plane: u32,
    sample: u8,
) -> Result<PlaneBuilder, AllocError>
    requires { IsLegal shape }
    ensures shown { IfOk result (λ made. decoded_rows shape made ≡ of_one_value shape plane sample) }
    ensures whole { IfOk result (λ made. AreWhole shape made) }
{
    let height = shape.plane_height(plane) as usize;
    if shape.bits == 8 || sample == 0 {
        return PlaneBuilder::new(
            alloc,
            memory,
            shape.row_bytes(plane) as usize,
            height,
            sample,
        );
    }
    let value = sample as u16 * shape.scale();
    let row = plain_row(alloc, shape.plane_width(plane) as usize, value)?;
    repeated(alloc, memory, height, row.as_slice())
}

// The chroma planes of one colour.
fn plain_chroma(
    alloc: Global,
    memory_of_u: Option<Vec<u8>>,
    memory_of_v: Option<Vec<u8>>,
    shape: Shape,
    colour: Colour,
) -> Result<Option<(PlaneBuilder, PlaneBuilder)>, AllocError>
    requires { IsLegal shape }
    ensures shown { IfOk result (λ made. map (decoded_rows shape) (chroma_list made) ≡ of_one_colour shape colour) }
    ensures whole { IfOk result (λ made. AllWhole shape (chroma_list made)) }
{
    if shape.kind.planes() == 1 {
        return Ok(None);
    }
    let u = plain_plane(alloc, memory_of_u, shape, 1, colour.u)?;
    let v = plain_plane(alloc, memory_of_v, shape, 2, colour.v)?;
    Ok(Some((u, v)))
}

// The chroma planes that were built.
fn finish_chroma(
    alloc: Global,
    chroma: Option<(PlaneBuilder, PlaneBuilder)>,
) -> Result<Option<(Plane, Plane)>, AllocError>
    ensures { IfOk result (λ made. made ≡ chroma) }
{
    match chroma {
        Some((u, v)) => Ok(Some((u.finish(alloc)?, v.finish(alloc)?))),
        None => Ok(None),
    }
}

// Puts rows into one of the planes.
fn put_rows_in(
    luma: &mut PlaneBuilder,
    chroma: &mut Option<(PlaneBuilder, PlaneBuilder)>,
    plane: u32,
    y: usize,
    count: usize,
    rows: &[u8],
)
    requires plane { plane < length (plane_list luma.old chroma.old) }
    requires inside { y + count ≤ length (plane_of luma.old chroma.old plane) }
    requires whole { length rows.now ≡ count * width_of (plane_of luma.old chroma.old plane) }
    ensures { plane_list luma.new chroma.new ≡ slice_set (plane_list luma.old chroma.old) plane
        (bytes_put (plane_of luma.old chroma.old plane) y count rows.now) }
{
    match (plane, chroma) {
        (0, _) => luma.put_rows(y, count, rows),
        (1, Some((u, _))) => u.put_rows(y, count, rows),
        (_, Some((_, v))) => v.put_rows(y, count, rows),
        (_, None) => unreachable!(),
    }
}

// Makes a plane one of the planes.
fn put_plane_in(
    luma: &mut PlaneBuilder,
    chroma: &mut Option<(PlaneBuilder, PlaneBuilder)>,
    plane: u32,
    shared: Plane,
)
    requires plane { plane < length (plane_list luma.old chroma.old) }
    requires like { IsPlaneLike (plane_of luma.old chroma.old plane) shared }
    ensures { plane_list luma.new chroma.new ≡ slice_set (plane_list luma.old chroma.old) plane shared }
{
    match (plane, chroma) {
        (0, _) => luma.put_plane(shared),
        (1, Some((u, _))) => u.put_plane(shared),
        (_, Some((_, v))) => v.put_plane(shared),
        (_, None) => unreachable!(),
    }
}

impl FrameBuilder {
    /// A picture whose samples are 0. An `Err` is out of memory.
    pub fn new(alloc: Global, shape: Shape) -> Result<FrameBuilder, AllocError>
        requires { IsLegal shape }
        ensures made { IfOk result (λ builder. builder ≡ blank shape (record { y = 0; u = 0; v = 0 })) }
        ensures sizes { IfOk result (λ builder. IsPicture builder) }
    {
        FrameBuilder::new_in(alloc, FrameMemory::none(), shape)
    }

    /// A picture whose samples are 0, in this memory as far as it has room. An `Err` is out of memory.
    pub fn new_in(
        alloc: Global,
        memory: FrameMemory,
        shape: Shape,
    ) -> Result<FrameBuilder, AllocError>
        requires { IsLegal shape }
        ensures made { IfOk result (λ builder. builder ≡ blank shape (record { y = 0; u = 0; v = 0 })) }
        ensures sizes { IfOk result (λ builder. IsPicture builder) }
    {
        FrameBuilder::filled(alloc, memory, shape, Colour { y: 0, u: 0, v: 0 })
    }

    pub(crate) fn filled(
        alloc: Global,
        memory: FrameMemory,
        shape: Shape,
        colour: Colour,
    ) -> Result<FrameBuilder, AllocError>
        requires { IsLegal shape }
        ensures made { IfOk result (λ builder. builder ≡ blank shape colour) }
        ensures sizes { IfOk result (λ builder. IsPicture builder) }
    {
        let FrameMemory { luma, u, v } = memory;
        Ok(FrameBuilder {
            alloc,
            shape,
            luma: plain_plane(alloc, luma, shape, 0, colour.y)?,
            chroma: plain_chroma(alloc, u, v, shape, colour)?,
        })
    }

    /// Puts the bytes of a row in its place. No sample may be over the largest one. The other rows stay.
    pub fn put_row(&mut self, plane: u32, y: u32, row: &[u8])
        requires plane { plane < planes self.old.shape.kind }
        requires inside { y < plane_height self.old.shape plane }
        requires whole { length row.now ≡ row_bytes self.old.shape plane }
        requires fits { FitBytes self.old.shape row.now }
        ensures shape { self.new.shape ≡ self.old.shape }
        ensures rows { self.new.planes ≡ with_row self.old.planes plane y (row_of_bytes self.old.shape row.now) }
        ensures sizes { IsPicture self.new }
    {
        let _ = &self.shape;
        self.put_rows(plane, y, 1, row);
    }

    /// Puts the bytes of `count` rows that lie side by side in the places from row `y` on. No sample may be over the
    /// largest one. The other rows stay.
    pub fn put_rows(&mut self, plane: u32, y: u32, count: u32, rows: &[u8])
        requires plane { plane < planes self.old.shape.kind }
        requires inside { y + count ≤ plane_height self.old.shape plane }
        requires whole { length rows.now ≡ count * row_bytes self.old.shape plane }
        requires fits { FitBytes self.old.shape rows.now }
        ensures shape { self.new.shape ≡ self.old.shape }
        ensures rows { self.new.planes
            ≡ with_rows self.old.planes plane y (rows_of_bytes self.old.shape plane count rows.now) }
        ensures sizes { IsPicture self.new }
    {
        put_rows_in(
            &mut self.luma,
            &mut self.chroma,
            plane,
            y as usize,
            count as usize,
            rows,
        );
    }

    /// Makes plane `of` of a frame the whole of a plane, of equal sizes and samples. It is shared, and no sample is
    /// copied. An `Err` is more shares than can be counted, and then nothing has changed.
    pub fn put_plane(&mut self, plane: u32, from: &Frame, of: u32) -> Result<(), AllocError>
        requires plane { plane < planes self.old.shape.kind }
        requires of { of < planes from.now.shape.kind }
        requires same { HasSamePlane self.old.shape plane from.now.shape of }
        ensures put { OnOk result
            (self.new.planes ≡ slice_set self.old.planes plane (slice_index_or from.now.planes of [])) }
        ensures err { OnErr result (self.new ≡ self.old) }
        ensures shape { self.new.shape ≡ self.old.shape }
        ensures sizes { IsPicture self.new }
    {
        let _ = &self.shape;
        let shared = from.plane(of).share()?;
        put_plane_in(&mut self.luma, &mut self.chroma, plane, shared);
        Ok(())
    }

    /// The picture that was written. An `Err` is out of memory, and the builder is gone.
    pub fn finish(self) -> Result<Frame, AllocError>
        ensures { IfOk result (λ frame. frame ≡ self) }
    {
        let FrameBuilder {
            alloc,
            shape,
            luma,
            chroma,
        } = self;
        let luma = luma.finish(alloc)?;
        let chroma = finish_chroma(alloc, chroma)?;
        Ok(Frame::of_planes(shape, luma, chroma))
    }
}
