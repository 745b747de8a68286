// `write_after` and `write_frame`: a line and the planes of a frame, put into a sink.
ghost use Rattle.std.specs.Prelude.{◌≡◌, ◌≤◌, ◌<◌, ◌+◌, ◌^◌, ◌++◌, length, take, IfOk, OnOk, OnErr};
ghost use Rattle.fv_io.specs.Sink.{Puts, PutsPrefix, IsLater, SinkFailed};
ghost use Rattle.fv_plane.specs.Format.{planes, row_bytes, frame_bytes};
ghost use Rattle.fv_plane.specs.Picture.{bytes_of, IsPicture};
ghost use Rattle.y4m_stream.specs.Planes.{bytes_of_plane, PutsAllBut};
ghost use Rattle.y4m_stream.specs.Stream.{frame_text};

use fv_io::{Failed, Sink};
use fv_plane::Frame;

/// The line before the bytes of a frame.
const HEAD: &[u8] = b"FRAME\n";
/// A frame that has at most this number of bytes with the line before it is put in one piece.
const SMALL: usize = 16_384;
/// Rows with gaps between them are put in pieces of at most this number of bytes, and longer rows one by one.
const PIECE: usize = 8_192;

// Makes room for `size` bytes in a buffer whose first `end` bytes are still to be put. If there is no room, they are
// put now. Answers how many bytes are still to be put.
fn make_room<K: Sink>(out: &mut K, buf: &[u8], end: usize, size: usize) -> Result<usize, Failed>
    requires end { end ≤ length buf.now }
    requires size { size ≤ length buf.now }
    ensures room { IfOk result (λ left. left + size ≤ length buf.now) }
    ensures put { IfOk result (λ left. PutsAllBut K.Sink out.old out.new (take end buf.now) (take left buf.now)) }
    ensures cut { OnErr result (PutsPrefix K.Sink out.old out.new (take end buf.now)) }
    ensures later { IsLater K.Sink out.old out.new }
    ensures steady { OnOk result (K.faults out.new ≡ K.faults out.old) }
    ensures failed { OnErr result (SinkFailed K.Sink out.old out.new) }
{
    if size <= buf.len() - end {
        return Ok(end);
    }
    out.put(&buf[..end])?;
    Ok(0)
}

// Copies the rows of a plane into a buffer, after its first `start` bytes, which are still to be put. Puts what the
// buffer has whenever there is no room for a row. Answers how many bytes are still to be put.
fn gather_plane<K: Sink>(
    out: &mut K,
    frame: &Frame,
    plane: u32,
    buf: &mut [u8],
    start: usize,
) -> Result<usize, Failed>
    requires plane { plane < planes frame.now.shape.kind }
    requires room { row_bytes frame.now.shape plane ≤ length buf.old }
    requires start { start ≤ length buf.old }
    ensures inside { IfOk result (λ end. end ≤ length buf.new) }
    ensures put { IfOk result (λ end. PutsAllBut K.Sink out.old out.new
        (take start buf.old ++ bytes_of_plane frame.now plane) (take end buf.new)) }
    ensures cut { OnErr result (PutsPrefix K.Sink out.old out.new
        (take start buf.old ++ bytes_of_plane frame.now plane)) }
    ensures later { IsLater K.Sink out.old out.new }
    ensures steady { OnOk result (K.faults out.new ≡ K.faults out.old) }
    ensures failed { OnErr result (SinkFailed K.Sink out.old out.new) }
{
    let mut end = start;
    for y in 0..frame.shape().plane_height(plane) {
        let row = frame.row(plane, y);
        let left = make_room(out, buf, end, row.len())?;
        buf[left..left + row.len()].copy_from_slice(row);
        end = left + row.len();
    }
    Ok(end)
}

// Puts a line and a small frame in one piece.
fn write_gathered<K: Sink>(out: &mut K, line: &[u8], frame: &Frame) -> Result<(), Failed>
    requires { length line.now + frame_bytes frame.now.shape ≤ 2 ^ 14 }
    ensures put { OnOk result (Puts K.Sink out.old out.new (line.now ++ bytes_of frame.now)) }
    ensures cut { OnErr result (PutsPrefix K.Sink out.old out.new (line.now ++ bytes_of frame.now)) }
    ensures later { IsLater K.Sink out.old out.new }
    ensures steady { OnOk result (K.faults out.new ≡ K.faults out.old) }
    ensures failed { OnErr result (SinkFailed K.Sink out.old out.new) }
{
    let mut buf = [0; SMALL];
    buf[..line.len()].copy_from_slice(line);
    let mut end = line.len();
    for plane in 0..frame.shape().kind.planes() {
        end = gather_plane(out, frame, plane, &mut buf, end)?;
    }
    out.put(&buf[..end])
}

// Puts the rows of a plane one by one.
fn write_long_rows<K: Sink>(out: &mut K, frame: &Frame, plane: u32) -> Result<(), Failed>
    requires { plane < planes frame.now.shape.kind }
    ensures put { OnOk result (Puts K.Sink out.old out.new (bytes_of_plane frame.now plane)) }
    ensures cut { OnErr result (PutsPrefix K.Sink out.old out.new (bytes_of_plane frame.now plane)) }
    ensures later { IsLater K.Sink out.old out.new }
    ensures steady { OnOk result (K.faults out.new ≡ K.faults out.old) }
    ensures failed { OnErr result (SinkFailed K.Sink out.old out.new) }
{
    for y in 0..frame.shape().plane_height(plane) {
        out.put(frame.row(plane, y))?;
    }
    Ok(())
}

// Puts the rows of a plane in pieces.
fn write_short_rows<K: Sink>(out: &mut K, frame: &Frame, plane: u32) -> Result<(), Failed>
    requires plane { plane < planes frame.now.shape.kind }
    requires room { row_bytes frame.now.shape plane ≤ 2 ^ 13 }
    ensures put { OnOk result (Puts K.Sink out.old out.new (bytes_of_plane frame.now plane)) }
    ensures cut { OnErr result (PutsPrefix K.Sink out.old out.new (bytes_of_plane frame.now plane)) }
    ensures later { IsLater K.Sink out.old out.new }
    ensures steady { OnOk result (K.faults out.new ≡ K.faults out.old) }
    ensures failed { OnErr result (SinkFailed K.Sink out.old out.new) }
{
    let mut buf = [0; PIECE];
    let end = gather_plane(out, frame, plane, &mut buf, 0)?;
    out.put(&buf[..end])
}

// Puts a plane whose rows have gaps between them.
fn write_rows<K: Sink>(out: &mut K, frame: &Frame, plane: u32) -> Result<(), Failed>
    requires { plane < planes frame.now.shape.kind }
    ensures put { OnOk result (Puts K.Sink out.old out.new (bytes_of_plane frame.now plane)) }
    ensures cut { OnErr result (PutsPrefix K.Sink out.old out.new (bytes_of_plane frame.now plane)) }
    ensures later { IsLater K.Sink out.old out.new }
    ensures steady { OnOk result (K.faults out.new ≡ K.faults out.old) }
    ensures failed { OnErr result (SinkFailed K.Sink out.old out.new) }
{
    if frame.shape().row_bytes(plane) as usize > PIECE {
        return write_long_rows(out, frame, plane);
    }
    write_short_rows(out, frame, plane)
}

// Puts a plane: in one piece where no bytes are between its rows.
fn write_plane<K: Sink>(out: &mut K, frame: &Frame, plane: u32) -> Result<(), Failed>
    requires { plane < planes frame.now.shape.kind }
    ensures put { OnOk result (Puts K.Sink out.old out.new (bytes_of_plane frame.now plane)) }
    ensures cut { OnErr result (PutsPrefix K.Sink out.old out.new (bytes_of_plane frame.now plane)) }
    ensures later { IsLater K.Sink out.old out.new }
    ensures steady { OnOk result (K.faults out.new ≡ K.faults out.old) }
    ensures failed { OnErr result (SinkFailed K.Sink out.old out.new) }
{
    let height = frame.shape().plane_height(plane);
    let (rows, count) = frame.rows_from(plane, 0);
    if count < height {
        return write_rows(out, frame, plane);
    }
    out.put(rows)
}

// Puts the planes of a frame in their order.
fn write_planes<K: Sink>(out: &mut K, frame: &Frame) -> Result<(), Failed>
    ensures put { OnOk result (Puts K.Sink out.old out.new (bytes_of frame.now)) }
    ensures cut { OnErr result (PutsPrefix K.Sink out.old out.new (bytes_of frame.now)) }
    ensures later { IsLater K.Sink out.old out.new }
    ensures steady { OnOk result (K.faults out.new ≡ K.faults out.old) }
    ensures failed { OnErr result (SinkFailed K.Sink out.old out.new) }
{
    for plane in 0..frame.shape().kind.planes() {
        write_plane(out, frame, plane)?;
    }
    Ok(())
}

/// Puts a line, whatever its bytes are, and the samples of a frame after it. Where both are small they are put in one
/// piece. After `Failed` only a prefix of these was put. A frame is a whole picture.
pub fn write_after<K: Sink>(out: &mut K, line: &[u8], frame: &Frame) -> Result<(), Failed>
    ensures put { OnOk result (Puts K.Sink out.old out.new (line.now ++ bytes_of frame.now)) }
    ensures cut { OnErr result (PutsPrefix K.Sink out.old out.new (line.now ++ bytes_of frame.now)) }
    ensures later { IsLater K.Sink out.old out.new }
    ensures steady { OnOk result (K.faults out.new ≡ K.faults out.old) }
    ensures failed { OnErr result (SinkFailed K.Sink out.old out.new) }
    ensures whole { IsPicture frame.now }
{
    if line.len() + frame.shape().bytes() as usize <= SMALL {
        return write_gathered(out, line, frame);
    }
    out.put(line)?;
    write_planes(out, frame)
}

/// Puts a frame as a stream has it (yuv4mpeg(5) of mjpegtools): `FRAME`, a newline and the planes. After `Failed` only
/// a prefix of these was put. A frame is a whole picture, so no half of one is put.
pub fn write_frame<K: Sink>(out: &mut K, frame: &Frame) -> Result<(), Failed>
    ensures put { OnOk result (Puts K.Sink out.old out.new (frame_text (bytes_of frame.now))) }
    ensures cut { OnErr result (PutsPrefix K.Sink out.old out.new (frame_text (bytes_of frame.now))) }
    ensures later { IsLater K.Sink out.old out.new }
    ensures steady { OnOk result (K.faults out.new ≡ K.faults out.old) }
    ensures failed { OnErr result (SinkFailed K.Sink out.old out.new) }
    ensures whole { IsPicture frame.now }
{
    write_after(out, HEAD, frame)
}
