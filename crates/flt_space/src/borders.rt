// Pictures inside borders of one colour.
ghost use Rattle.std.specs.Prelude.{◌≡◌, ◌*◌, ℕ, ℤ, None, IfOk, false, length};
ghost use Rattle.fv_plane.specs.Picture.{wide_bytes, across, down, look_in};
ghost use Rattle.fv_plane.specs.Format.{IsLegal, plane_width, sample_bytes};
ghost use Rattle.fv_plane.specs.Refusals.{first_fault};
ghost use Rattle.clip_term.specs.declared.op.SpaceOp.{SpaceOp};
ghost use Rattle.clip_term.specs.declared.op.SpaceOp.TheVariants.{AddBorders, LetterBox};
ghost use Rattle.clip_term.specs.Refusals.{nat_of, paint};
ghost use Rattle.clip_term.specs.Space.{space_at, space_picture, space_refusals, space_shape, is_within};
ghost use Rattle.flt_space.specs.Kept.{keeps_plane};
ghost use Rattle.flt_space.specs.Moves.{CanMove, IsPlan, planned};
ghost use Rattle.flt_space.specs.Rows.{IsRowToMake, row_made};

use crate::kernels::pad_row;
use crate::wide::pad_bytes;
use clip_term::part_of;
use fv_plane::{Frame, FrameMemory, RowMaker, Shape, make_by_rows};
use std::alloc::{AllocError, Global};

// Columns of luma, on a plane.
fn across(shape: Shape, plane: u32, columns: i32) -> u32
    ensures { result ≡ across shape plane (nat_of columns) }
{
    if plane == 0 {
        columns.unsigned_abs()
    } else {
        columns.unsigned_abs() / shape.kind.sub_w()
    }
}

// Rows of luma, on a plane.
fn down(shape: Shape, plane: u32, rows: i32) -> u32
    ensures { result ≡ down shape plane (nat_of rows) }
{
    if plane == 0 {
        rows.unsigned_abs()
    } else {
        rows.unsigned_abs() / shape.kind.sub_h()
    }
}

fn is_within(start: u64, end: u64, at: u64) -> bool
    ensures { result ≡ is_within start end at }
{
    start <= at && at < end
}

fn paint(colour: i32, shape: Shape, plane: u32) -> u8
    requires { shape.bits ≡ 8 }
    ensures { result ≡ paint colour shape plane }
{
    part_of(colour.unsigned_abs(), plane)
}

// The colour as a sample of two bytes.
fn wide_paint(colour: i32, shape: Shape, plane: u32) -> u16
    requires { IsLegal shape }
    ensures { result ≡ paint colour shape plane }
{
    part_of(colour.unsigned_abs(), plane) as u16 * shape.scale()
}

// A row that is a part of a row of the input, after samples of one value and before others.
#[derive(Clone, Copy)]
struct RowPlan {
    row: u32,
    from: u32,
    count: u32,
    before: u32,
}

// No samples of the input.
const NO_ROW: RowPlan = RowPlan {
    row: 0,
    from: 0,
    count: 0,
    before: 0,
};

// A filter that puts parts of rows between samples of one colour.
trait RowMover {
    // The filter with its arguments.
    ghost op: { Self → SpaceOp };

    // The colour.
    ghost colour: { Self → ℤ };

    fn colour(&self) -> i32
        ensures { result ≡ colour self.now };

    // What a row is.
    fn plan(&self, input: &Frame, plane: u32, y: u32) -> RowPlan
        requires { IsRowToMake (op self.now) input.now plane y }
        ensures fits { IsPlan result input.now.shape plane (plane_width (space_shape (op self.now) input.now.shape) plane) }
        ensures row { planned result (paint (colour self.now) input.now.shape plane) input.now plane
            (plane_width (space_shape (op self.now) input.now.shape) plane) ≡ row_made (op self.now) input.now plane y };
}

// The rows of the picture that a mover makes.
#[derive(Drop)]
struct MovedRows<'a, M> {
    mover: &'a M,
    input: &'a Frame,
    shape: Shape,
}

// Writes a row of samples of one byte.
fn fill_narrow(input: &Frame, plane: u32, plan: RowPlan, colour: u8, out: &mut [u8])
    requires narrow { input.now.shape.bits ≡ 8 }
    requires fits { IsPlan plan input.now.shape plane (length out.old) }
    ensures { out.new ≡ planned plan colour input.now plane (length out.old) }
{
    let row = input.row(plane, plan.row);
    let from = plan.from as usize;
    let end = from + plan.count as usize;
    pad_row(&row[from..end], plan.before as usize, colour, out);
}

// Writes the bytes of a row of samples of two bytes.
fn fill_wide(
    input: &Frame,
    plane: u32,
    plan: RowPlan,
    colour: u16,
    samples: &mut [u16],
    out: &mut [u8],
)
    requires wide { sample_bytes input.now.shape ≡ 2 }
    requires fits { IsPlan plan input.now.shape plane (length samples.old) }
    requires whole { length out.old ≡ length samples.old * 2 }
    ensures { out.new ≡ wide_bytes (planned plan colour input.now plane (length samples.old)) }
{
    let row = input.row(plane, plan.row);
    let from = 2 * plan.from as usize;
    let end = from + 2 * plan.count as usize;
    pad_bytes(&row[from..end], plan.before as usize, colour, samples, out);
}

impl<M: RowMover> RowMaker for MovedRows<'_, M> {
    ghost shape_made = { λ rows. space_shape (M.op rows.mover.now) rows.input.now.shape };

    ghost look_made = { λ rows. space_at (M.op rows.mover.now) rows.input.now.shape (look_in rows.input.now) };

    ghost keeps = { λ rows p. keeps_plane (M.op rows.mover.now) p };

    ghost can_make = { λ rows. CanMove (M.op rows.mover.now) rows.input.now rows.shape };

    fn shape(&self) -> Shape {
        // No sample of the input is over the largest one.
        let _ = self.input.shape();
        self.shape
    }

    fn kept(&self, plane: u32) -> Option<(&Frame, u32)> {
        None
    }

    fn fill_row(&mut self, plane: u32, y: u32, samples: &mut [u16], out: &mut [u8]) {
        let shape = self.input.shape();
        let plan = self.mover.plan(self.input, plane, y);
        let colour = self.mover.colour();
        if shape.bits == 8 {
            fill_narrow(self.input, plane, plan, paint(colour, shape, plane), out);
        } else {
            let colour = wide_paint(colour, shape, plane);
            fill_wide(self.input, plane, plan, colour, samples, out);
        }
    }
}

// The picture of this shape that a mover makes.
fn make_moved<M: RowMover + Drop>(
    alloc: Global,
    memory: FrameMemory,
    mover: &M,
    input: &Frame,
    shape: Shape,
) -> Result<Frame, AllocError>
    requires accepted { first_fault (space_refusals (M.op mover.now) input.now.shape) ≡ None }
    requires shape { shape ≡ space_shape (M.op mover.now) input.now.shape }
    requires bits { shape.bits ≡ input.now.shape.bits }
    requires legal { IsLegal shape }
    requires none { (p : ℕ) → keeps_plane (M.op mover.now) p ≡ false }
    ensures { IfOk result (λ made. made ≡ space_picture (M.op mover.now) input.now) }
{
    let mut rows = MovedRows {
        mover,
        input,
        shape,
    };
    make_by_rows(alloc, memory, &mut rows)
}

#[derive(Drop)]
struct BorderRows {
    left: i32,
    top: i32,
    right: i32,
    bottom: i32,
    color_yuv: i32,
}

impl RowMover for BorderRows {
    ghost op = { λ filter. AddBorders filter.left filter.top filter.right filter.bottom filter.color_yuv };

    ghost colour = { λ filter. filter.color_yuv };

    fn colour(&self) -> i32 {
        self.color_yuv
    }

    fn plan(&self, input: &Frame, plane: u32, y: u32) -> RowPlan {
        let shape = input.shape();
        let before = across(shape, plane, self.left);
        let top = down(shape, plane, self.top);
        let end = top as u64 + shape.plane_height(plane) as u64;
        if is_within(top as u64, end, y as u64) {
            RowPlan {
                row: y - top,
                from: 0,
                count: shape.plane_width(plane),
                before,
            }
        } else {
            NO_ROW
        }
    }
}

/// `AddBorders`: the picture with columns and rows of one colour around it. An `Err` is out of memory.
pub fn add_borders(
    alloc: Global,
    memory: FrameMemory,
    input: &Frame,
    left: i32,
    top: i32,
    right: i32,
    bottom: i32,
    color_yuv: i32,
) -> Result<Frame, AllocError>
    requires accepted { first_fault (space_refusals (AddBorders left top right bottom color_yuv) input.now.shape) ≡ None }
    requires legal { IsLegal (space_shape (AddBorders left top right bottom color_yuv) input.now.shape) }
    ensures { IfOk result (λ made. made ≡ space_picture (AddBorders left top right bottom color_yuv) input.now) }
{
    let shape = input.shape();
    let bordered = Shape {
        width: shape.width + left.unsigned_abs() + right.unsigned_abs(),
        height: shape.height + top.unsigned_abs() + bottom.unsigned_abs(),
        ..shape
    };
    let filter = BorderRows {
        left,
        top,
        right,
        bottom,
        color_yuv,
    };
    make_moved(alloc, memory, &filter, input, bordered)
}

#[derive(Drop)]
struct BoxRows {
    top: i32,
    bottom: i32,
    x1: i32,
    x2: i32,
    color_yuv: i32,
}

impl RowMover for BoxRows {
    ghost op = { λ filter. LetterBox filter.top filter.bottom filter.x1 filter.x2 filter.color_yuv };

    ghost colour = { λ filter. filter.color_yuv };

    fn colour(&self) -> i32 {
        self.color_yuv
    }

    fn plan(&self, input: &Frame, plane: u32, y: u32) -> RowPlan {
        let shape = input.shape();
        let left = across(shape, plane, self.x1);
        let right = across(shape, plane, self.x2);
        let top = down(shape, plane, self.top) as u64;
        let bottom = down(shape, plane, self.bottom) as u64;
        let end = (shape.plane_height(plane) as u64).saturating_sub(bottom);
        if is_within(top, end, y as u64) {
            RowPlan {
                row: y,
                from: left,
                count: shape.plane_width(plane) - right - left,
                before: left,
            }
        } else {
            NO_ROW
        }
    }
}

/// `LetterBox`: the picture with its edges covered by one colour. An `Err` is out of memory.
pub fn letter_box(
    alloc: Global,
    memory: FrameMemory,
    input: &Frame,
    top: i32,
    bottom: i32,
    x1: i32,
    x2: i32,
    color_yuv: i32,
) -> Result<Frame, AllocError>
    requires { first_fault (space_refusals (LetterBox top bottom x1 x2 color_yuv) input.now.shape) ≡ None }
    ensures { IfOk result (λ made. made ≡ space_picture (LetterBox top bottom x1 x2 color_yuv) input.now) }
{
    let filter = BoxRows {
        top,
        bottom,
        x1,
        x2,
        color_yuv,
    };
    make_moved(alloc, memory, &filter, input, input.shape())
}
