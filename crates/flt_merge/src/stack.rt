// `StackVertical` and `StackHorizontal`: pictures below each other, or side by side.
ghost use Rattle.std.specs.Prelude.{◌≡◌, ◌<◌, ◌≤◌, IfOk, false, length, map};
ghost use Rattle.std.specs.List.{All};
ghost use Rattle.fv_plane.specs.Format.{IsLegal, planes, plane_height};
ghost use Rattle.fv_plane.specs.Picture.{look_in, IsPicture};
ghost use Rattle.clip_term.specs.declared.op.JoinOp.TheVariants.{StackHorizontal, StackVertical};
ghost use Rattle.clip_term.specs.Join.{join_at};
ghost use Rattle.flt_merge.specs.Joined.{AreBeside, infos_in, shape_joined, join_picture};
ghost use Rattle.flt_merge.specs.Rows.{HaveWidth, HaveHeight, width_of_all, height_of_all, bytes_beside};

use fv_plane::{Frame, FrameBuilder, FrameMemory, RowMaker, Shape, make_by_rows};
use std::alloc::{AllocError, Global};

// The heights of all pictures.
fn height_of_all(inputs: &[Frame]) -> u32
    requires { height_of_all inputs.now ≤ 65535 }
    ensures height { result ≡ height_of_all inputs.now }
    ensures sizes { All IsPicture inputs.now }
{
    let mut height = 0;
    for i in 0..inputs.len() {
        height += inputs[i].shape().height;
    }
    height
}

// The widths of all pictures.
fn width_of_all(inputs: &[Frame]) -> u32
    requires { width_of_all inputs.now ≤ 65535 }
    ensures width { result ≡ width_of_all inputs.now }
    ensures sizes { All IsPicture inputs.now }
{
    let mut width = 0;
    for i in 0..inputs.len() {
        width += inputs[i].shape().width;
    }
    width
}

// The shape of pictures below each other.
fn shape_beneath(inputs: &[Frame]) -> Shape
    requires some { 0 < length inputs.now }
    requires legal { IsLegal (shape_joined StackVertical inputs.now) }
    ensures shape { result ≡ shape_joined StackVertical inputs.now }
    ensures sizes { All IsPicture inputs.now }
{
    Shape {
        height: height_of_all(inputs),
        ..inputs[0].shape()
    }
}

// The shape of pictures side by side.
fn shape_beside(inputs: &[Frame]) -> Shape
    requires some { 0 < length inputs.now }
    requires legal { IsLegal (shape_joined StackHorizontal inputs.now) }
    ensures shape { result ≡ shape_joined StackHorizontal inputs.now }
    ensures sizes { All IsPicture inputs.now }
{
    Shape {
        width: width_of_all(inputs),
        ..inputs[0].shape()
    }
}

/// The pictures below each other, from the top. An `Err` is out of memory.
pub fn stack_vertical(
    alloc: Global,
    memory: FrameMemory,
    inputs: &[Frame],
) -> Result<Frame, AllocError>
    requires some { 0 < length inputs.now }
    requires legal { IsLegal (shape_joined StackVertical inputs.now) }
    requires alike { HaveWidth (shape_joined StackVertical inputs.now) inputs.now }
    ensures { IfOk result (λ made. made ≡ join_picture StackVertical inputs.now) }
{
    let shape = shape_beneath(inputs);
    let mut made = FrameBuilder::new_in(alloc, memory, shape)?;
    for plane in 0..shape.kind.planes() {
        let mut top = 0;
        for i in 0..inputs.len() {
            let height = inputs[i].shape().plane_height(plane);
            let mut y = 0;
            while y < height {
                let (rows, count) = inputs[i].rows_from(plane, y);
                made.put_rows(plane, top + y, count, rows);
                y += count;
            }
            top += height;
        }
    }
    made.finish()
}

// Fills the bytes of a row with those of the pictures, from the left.
fn fill_row(inputs: &[Frame], plane: u32, y: u32, row: &mut [u8])
    requires plane { All (λ picture. plane < planes picture.shape.kind) inputs.now }
    requires inside { All (λ picture. y < plane_height picture.shape plane) inputs.now }
    requires whole { length row.old ≡ length (bytes_beside inputs.now plane y) }
    ensures { row.new ≡ bytes_beside inputs.now plane y }
{
    let mut left = 0;
    for i in 0..inputs.len() {
        let part = inputs[i].row(plane, y);
        row[left..left + part.len()].copy_from_slice(part);
        left += part.len();
    }
}

// The rows of pictures side by side.
#[derive(Drop)]
struct RowsBeside<'a> {
    inputs: &'a [Frame],
    shape: Shape,
}

impl RowMaker for RowsBeside<'_> {
    ghost shape_made = { λ rows. rows.shape };

    ghost look_made = { λ rows. join_at StackHorizontal (infos_in rows.inputs.now) (map look_in rows.inputs.now) };

    ghost keeps = { λ rows p. false };

    ghost can_make = { λ rows. AreBeside rows.shape rows.inputs.now };

    fn shape(&self) -> Shape {
        self.shape
    }

    fn kept(&self, plane: u32) -> Option<(&Frame, u32)> {
        None
    }

    fn fill_row(&mut self, plane: u32, y: u32, samples: &mut [u16], out: &mut [u8]) {
        fill_row(self.inputs, plane, y, out);
    }
}

/// The pictures side by side, from the left. An `Err` is out of memory.
pub fn stack_horizontal(
    alloc: Global,
    memory: FrameMemory,
    inputs: &[Frame],
) -> Result<Frame, AllocError>
    requires some { 0 < length inputs.now }
    requires legal { IsLegal (shape_joined StackHorizontal inputs.now) }
    requires alike { HaveHeight (shape_joined StackHorizontal inputs.now) inputs.now }
    ensures { IfOk result (λ made. made ≡ join_picture StackHorizontal inputs.now) }
{
    let shape = shape_beside(inputs);
    make_by_rows(alloc, memory, &mut RowsBeside { inputs, shape })
}
