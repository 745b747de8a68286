// `TurnLeft` and `TurnRight`: pictures turned on their side.
ghost use Rattle.std.specs.Prelude.{◌≡◌, ◌<◌, ◌≤◌, ◌+◌, ◌*◌, ◌-◌, ◌%◌, ◌^◌, ℕ, None, IfOk, length, slice_index};
ghost use Rattle.fv_plane.specs.Picture.{row_of_bytes, look_in, sample_of};
ghost use Rattle.fv_plane.specs.Format.{IsLegal, planes, plane_width, plane_height, row_bytes, sample_bytes};
ghost use Rattle.fv_plane.specs.Refusals.{first_fault};
ghost use Rattle.clip_term.specs.declared.op.SpaceOp.{SpaceOp};
ghost use Rattle.clip_term.specs.declared.op.SpaceOp.TheVariants.{TurnLeft, TurnRight};
ghost use Rattle.clip_term.specs.Space.{space_at, space_picture, space_refusals, space_shape};
ghost use Rattle.flt_turn.specs.Rows.{AreRows, HasBlock, HasMoreAbove, HasRows, HasColumns, Turns, size_of_rows};

use crate::kernels::{copy_16, transpose, unweave, weave};
use fv_plane::{Frame, FrameBuilder, FrameMemory, Shape};
use std::alloc::{AllocError, Global};

// How many rows are made at a time. Columns that lie beside each other are read together, since they share cache lines.
const AT_A_TIME: u32 = 128;

// The place of a column in one of rows that lie side by side.
fn place(row: usize, width: usize, column: usize, rows: usize) -> usize
    requires row { row < rows }
    requires column { column < width }
    requires small { rows * width < 2 ^ 40 }
    ensures place { result ≡ row * width + column }
    ensures inside { result < rows * width }
{
    row * width + column
}

fn on_side(shape: Shape) -> Shape
    ensures { result ≡ space_shape TurnLeft shape }
{
    Shape {
        width: shape.height,
        height: shape.width,
        ..shape
    }
}

// A turn to one side: a column of the turned plane is a row of the input, and a row of it a column.
trait Turn {
    ghost op: { SpaceOp };

    // The row of a plane of this height that column x becomes.
    ghost row_of: { ℕ → ℕ → ℕ };

    // The column of a plane of this width that row y becomes.
    ghost column_of: { ℕ → ℕ → ℕ };

    fn row(height: u32, x: u32) -> u32
        requires { x < height }
        ensures value { result ≡ row_of height x }
        ensures inside { result < height };

    fn column(width: u32, y: u32) -> u32
        requires { y < width }
        ensures value { result ≡ column_of width y }
        ensures inside { result < width };

    // The first of the 16 columns that the rows from y on become.
    fn first_column(width: u32, y: u32) -> u32
        requires { y + 16 ≤ width }
        ensures inside { result + 16 ≤ width }
        ensures low { (k : ℕ) → k < 16 → result ≤ column_of width (y + k) }
        ensures high { (k : ℕ) → k < 16 → column_of width (y + k) < result + 16 };
}

struct ToLeft;

impl Turn for ToLeft {
    ghost op = { TurnLeft };

    ghost row_of = { λ height x. x };

    ghost column_of = { λ width y. width - 1 - y };

    fn row(_: u32, x: u32) -> u32 {
        x
    }

    fn column(width: u32, y: u32) -> u32 {
        width - 1 - y
    }

    fn first_column(width: u32, y: u32) -> u32 {
        width - 16 - y
    }
}

struct ToRight;

impl Turn for ToRight {
    ghost op = { TurnRight };

    ghost row_of = { λ height x. height - 1 - x };

    ghost column_of = { λ width y. y };

    fn row(height: u32, x: u32) -> u32 {
        height - 1 - x
    }

    fn column(_: u32, y: u32) -> u32 {
        y
    }

    fn first_column(_: u32, y: u32) -> u32 {
        y
    }
}

// Reads 16 bytes, from one on, of each of the rows that 16 columns of the turned plane are.
fn read_block<T: Turn>(input: &Frame, plane: u32, from: usize, x: u32, block: &mut [u8; 256])
    requires plane { plane < planes input.now.shape.kind }
    requires across { from + 16 ≤ row_bytes input.now.shape plane }
    requires down { x + 16 ≤ plane_height input.now.shape plane }
    ensures { HasBlock T.row_of input.now plane from x block.new }
{
    let height = input.shape().plane_height(plane);
    for i in 0..16 {
        let row = input.row(plane, T::row(height, x + i));
        let at = 16 * i as usize;
        copy_16(&row[from..from + 16], &mut block[at..at + 16]);
    }
}

// Reads 16 samples of two bytes, from a column on, of each of the rows that 16 columns of the turned plane are: the low
// bytes into one block, the high ones into another.
fn read_wide_block<T: Turn>(
    input: &Frame,
    plane: u32,
    column: u32,
    x: u32,
    low: &mut [u8; 256],
    high: &mut [u8; 256],
)
    requires wide { sample_bytes input.now.shape ≡ 2 }
    requires plane { plane < planes input.now.shape.kind }
    requires across { column + 16 ≤ plane_width input.now.shape plane }
    requires down { x + 16 ≤ plane_height input.now.shape plane }
    ensures { (k i : ℕ) → k < 16 → i < 16 → slice_index low.new (16 * i + k) + 256 * slice_index high.new (16 * i + k)
        ≡ sample_of input.now.planes plane (column + k) (T.row_of (plane_height input.now.shape plane) (x + i)) }
{
    let from = 2 * column as usize;
    let mut front = [0; 256];
    let mut back = [0; 256];
    read_block::<T>(input, plane, from, x, &mut front);
    read_block::<T>(input, plane, from + 16, x, &mut back);
    for i in 0..16 {
        let at = 16 * i;
        unweave(
            &front[at..at + 16],
            &back[at..at + 16],
            &mut low[at..at + 16],
            &mut high[at..at + 16],
        );
    }
}

// Where the samples that go to row y of the turned plane begin in a block of 16 columns, from `first` on.
fn start_in_block<T: Turn>(width: u32, first: u32, y: u32) -> usize
    requires inside { y < width }
    requires low { first ≤ T.column_of width y }
    requires high { T.column_of width y < first + 16 }
    ensures { result ≡ 16 * (T.column_of width y - first) }
{
    16 * (T::column(width, y) - first) as usize
}

// Makes 16 columns, from x on, of 16 rows, from `top` on, of those that lie side by side from row y of the turned plane on.
fn turn_block<T: Turn>(
    input: &Frame,
    plane: u32,
    y: u32,
    count: u32,
    top: u32,
    x: u32,
    out: &mut [u8],
)
    requires narrow { input.now.shape.bits ≡ 8 }
    requires rows { AreRows input.now plane y count }
    requires down { x + 16 ≤ plane_height input.now.shape plane }
    requires inside { top + 16 ≤ count }
    requires whole { length out.old ≡ size_of_rows input.now.shape plane count }
    requires before { HasMoreAbove T.row_of T.column_of input.now plane y count top x out.old }
    ensures whole { length out.new ≡ length out.old }
    ensures more { HasMoreAbove T.row_of T.column_of input.now plane y count (top + 16) x out.new }
{
    let width = input.shape().plane_width(plane);
    let height = input.shape().plane_height(plane) as usize;
    let first = T::first_column(width, y + top);
    let mut block = [0; 256];
    read_block::<T>(input, plane, first as usize, x, &mut block);
    transpose(&mut block);
    for k in 0..16 {
        let from = start_in_block::<T>(width, first, y + top + k);
        let at = (top + k) as usize * height + x as usize;
        copy_16(&block[from..from + 16], &mut out[at..at + 16]);
    }
}

// The same, where a sample has two bytes.
fn turn_wide_block<T: Turn>(
    input: &Frame,
    plane: u32,
    y: u32,
    count: u32,
    top: u32,
    x: u32,
    out: &mut [u8],
)
    requires wide { sample_bytes input.now.shape ≡ 2 }
    requires rows { AreRows input.now plane y count }
    requires down { x + 16 ≤ plane_height input.now.shape plane }
    requires inside { top + 16 ≤ count }
    requires whole { length out.old ≡ size_of_rows input.now.shape plane count }
    requires before { HasMoreAbove T.row_of T.column_of input.now plane y count top x out.old }
    ensures whole { length out.new ≡ length out.old }
    ensures more { HasMoreAbove T.row_of T.column_of input.now plane y count (top + 16) x out.new }
{
    let width = input.shape().plane_width(plane);
    let height = input.shape().plane_height(plane) as usize;
    let first = T::first_column(width, y + top);
    let mut low = [0; 256];
    let mut high = [0; 256];
    read_wide_block::<T>(input, plane, first, x, &mut low, &mut high);
    transpose(&mut low);
    transpose(&mut high);
    for k in 0..16 {
        let from = start_in_block::<T>(width, first, y + top + k);
        let at = 2 * ((top + k) as usize * height + x as usize);
        weave(
            &low[from..from + 16],
            &high[from..from + 16],
            &mut out[at..at + 32],
        );
    }
}

// Makes the columns, from x on, of rows of the turned plane.
fn turn_columns<T: Turn>(input: &Frame, plane: u32, y: u32, count: u32, x: u32, out: &mut [u8])
    requires narrow { input.now.shape.bits ≡ 8 }
    requires rows { AreRows input.now plane y count }
    requires whole { length out.old ≡ size_of_rows input.now.shape plane count }
    requires before { HasColumns T.row_of T.column_of input.now plane y count x out.old }
    ensures whole { length out.new ≡ length out.old }
    ensures all { HasColumns T.row_of T.column_of input.now plane y count (plane_height input.now.shape plane) out.new }
{
    let width = input.shape().plane_width(plane);
    let height = input.shape().plane_height(plane);
    for x in x..height {
        let row = input.row(plane, T::row(height, x));
        for k in 0..count {
            let at = place(k as usize, height as usize, x as usize, count as usize);
            out[at] = row[T::column(width, y + k) as usize];
        }
    }
}

// The same, where a sample has two bytes.
fn turn_wide_columns<T: Turn>(input: &Frame, plane: u32, y: u32, count: u32, x: u32, out: &mut [u8])
    requires wide { sample_bytes input.now.shape ≡ 2 }
    requires rows { AreRows input.now plane y count }
    requires whole { length out.old ≡ size_of_rows input.now.shape plane count }
    requires before { HasColumns T.row_of T.column_of input.now plane y count x out.old }
    ensures whole { length out.new ≡ length out.old }
    ensures all { HasColumns T.row_of T.column_of input.now plane y count (plane_height input.now.shape plane) out.new }
{
    let width = input.shape().plane_width(plane);
    let height = input.shape().plane_height(plane);
    for x in x..height {
        let row = input.row(plane, T::row(height, x));
        for k in 0..count {
            let at = 2 * place(k as usize, height as usize, x as usize, count as usize);
            let from = 2 * T::column(width, y + k) as usize;
            out[at] = row[from];
            out[at + 1] = row[from + 1];
        }
    }
}

// Makes 16 columns, from x on, of rows of the turned plane.
fn turn_across<T: Turn>(input: &Frame, plane: u32, y: u32, count: u32, x: u32, out: &mut [u8])
    requires rows { AreRows input.now plane y count }
    requires down { x + 16 ≤ plane_height input.now.shape plane }
    requires blocks { count % 16 ≡ 0 }
    requires whole { length out.old ≡ size_of_rows input.now.shape plane count }
    requires before { HasColumns T.row_of T.column_of input.now plane y count x out.old }
    ensures whole { length out.new ≡ length out.old }
    ensures more { HasColumns T.row_of T.column_of input.now plane y count (x + 16) out.new }
{
    let narrow = input.shape().bits == 8;
    for block in 0..count / 16 {
        if narrow {
            turn_block::<T>(input, plane, y, count, 16 * block, x, out);
        } else {
            turn_wide_block::<T>(input, plane, y, count, 16 * block, x, out);
        }
    }
}

// Makes rows of the turned plane, but for its last columns, and answers at which column these begin.
fn turn_blocks<T: Turn>(input: &Frame, plane: u32, y: u32, count: u32, out: &mut [u8]) -> u32
    requires rows { AreRows input.now plane y count }
    requires blocks { count % 16 ≡ 0 }
    requires whole { length out.old ≡ size_of_rows input.now.shape plane count }
    ensures whole { length out.new ≡ length out.old }
    ensures inside { result ≤ plane_height input.now.shape plane }
    ensures done { HasColumns T.row_of T.column_of input.now plane y count result out.new }
{
    let blocks = input.shape().plane_height(plane) / 16;
    for block in 0..blocks {
        turn_across::<T>(input, plane, y, count, 16 * block, out);
    }
    16 * blocks
}

// Makes rows of the turned plane from row `y` on, which lie side by side.
fn turn_rows<T: Turn>(input: &Frame, plane: u32, y: u32, count: u32, out: &mut [u8])
    requires rows { AreRows input.now plane y count }
    requires whole { length out.old ≡ size_of_rows input.now.shape plane count }
    ensures whole { length out.new ≡ length out.old }
    ensures rows { HasColumns T.row_of T.column_of input.now plane y count (plane_height input.now.shape plane) out.new }
{
    let made = if count % 16 == 0 {
        turn_blocks::<T>(input, plane, y, count, out)
    } else {
        0
    };
    if input.shape().bits == 8 {
        turn_columns::<T>(input, plane, y, count, made, out);
    } else {
        turn_wide_columns::<T>(input, plane, y, count, made, out);
    }
}

// How many bytes rows of this many samples have.
fn size_of(shape: Shape, count: u32, width: u32) -> usize
    requires few { count ≤ 128 }
    requires wide { width ≤ 65535 }
    ensures { result ≡ count * (width * sample_bytes shape) }
{
    count as usize * (width * shape.sample_bytes()) as usize
}

// The bytes of rows of the turned plane from row `y` on, which lie side by side. An `Err` is out of memory.
fn turned_rows<T: Turn>(
    alloc: Global,
    input: &Frame,
    plane: u32,
    y: u32,
    count: u32,
) -> Result<Vec<u8>, AllocError>
    requires rows { AreRows input.now plane y count }
    requires turns { Turns T.op T.row_of T.column_of input.now }
    ensures long { IfOk result (λ rows. length rows.items ≡ size_of_rows input.now.shape plane count) }
    ensures rows { IfOk result (λ rows. HasRows (space_at T.op input.now.shape (look_in input.now)) plane y count
        (plane_height input.now.shape plane) (row_of_bytes input.now.shape rows.items)) }
{
    let shape = input.shape();
    let size = size_of(shape, count, shape.plane_height(plane));
    let mut rows = vec![in alloc; 0u8; size]?;
    turn_rows::<T>(input, plane, y, count, rows.as_mut_slice());
    Ok(rows)
}

// The picture turned to a side.
fn make_turned<T: Turn>(
    alloc: Global,
    memory: FrameMemory,
    input: &Frame,
) -> Result<Frame, AllocError>
    requires accepted { first_fault (space_refusals TurnLeft input.now.shape) ≡ None }
    requires side { space_shape T.op input.now.shape ≡ space_shape TurnLeft input.now.shape }
    requires turns { Turns T.op T.row_of T.column_of input.now }
    requires legal { IsLegal (space_shape TurnLeft input.now.shape) }
    ensures { IfOk result (λ made. made ≡ space_picture T.op input.now) }
{
    let shape = on_side(input.shape());
    let mut made = FrameBuilder::new_in(alloc, memory, shape)?;
    for plane in 0..shape.kind.planes() {
        let height = shape.plane_height(plane);
        let mut y = 0;
        while y < height {
            let count = (height - y).min(AT_A_TIME);
            let rows = turned_rows::<T>(alloc, input, plane, y, count)?;
            made.put_rows(plane, y, count, &rows);
            y += count;
        }
    }
    made.finish()
}

/// `TurnLeft`: the picture turned to the left, the right edge at the top. It is made in `memory` as far as that has room.
/// An `Err` is out of memory.
pub fn turn_left(alloc: Global, memory: FrameMemory, input: &Frame) -> Result<Frame, AllocError>
    requires accepted { first_fault (space_refusals TurnLeft input.now.shape) ≡ None }
    requires legal { IsLegal (space_shape TurnLeft input.now.shape) }
    ensures { IfOk result (λ made. made ≡ space_picture TurnLeft input.now) }
{
    make_turned::<ToLeft>(alloc, memory, input)
}

/// `TurnRight`: the picture turned to the right, the left edge at the top. It is made in `memory` as far as that has room.
/// An `Err` is out of memory.
pub fn turn_right(alloc: Global, memory: FrameMemory, input: &Frame) -> Result<Frame, AllocError>
    requires accepted { first_fault (space_refusals TurnRight input.now.shape) ≡ None }
    requires legal { IsLegal (space_shape TurnRight input.now.shape) }
    ensures { IfOk result (λ made. made ≡ space_picture TurnRight input.now) }
{
    make_turned::<ToRight>(alloc, memory, input)
}
