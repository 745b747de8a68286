// The head of a stream, read.
ghost use Rattle.std.specs.Prelude.{◌≡◌, ◌<◌, take, length, IfOk, IfErr, IfSome, Some};
ghost use Rattle.std.specs.List.{position};
ghost use Rattle.fv_plane.specs.Format.{IsLegal};
ghost use Rattle.fv_plane.specs.Info.{IsRate, IsPar};
ghost use Rattle.y4m_stream.specs.Line.{IsLine, IsHead};
ghost use Rattle.y4m_stream.specs.Stream.{is_newline, is_break, has_magic, head_fault};

use crate::fault::Y4mFault;
use crate::parameters::read_parameters;
use fv_plane::Info;

/// How many bytes the head of a stream or of a frame has at most, with its newline.
pub(crate) const MAX_HEAD: usize = 4_096;

const MAGIC: &[u8] = b"YUV4MPEG2";

/// The head of a stream.
#[derive(Clone, Copy, Debug, PartialEq, Eq)]
pub struct Head {
    /// What it says. No frames are counted yet.
    pub info: Info,
    /// Its bytes, with its newline.
    pub len: u32,
}

/// Whether this is a space or a newline.
pub(crate) fn is_break(byte: u8) -> bool
    ensures { result ≡ is_break byte }
{
    byte == b' ' || byte == b'\n'
}

/// Where the first line ends, if it is short enough for a head.
pub(crate) fn line_end(bytes: &[u8]) -> Option<usize>
    ensures end { result ≡ position is_newline (take 4096 bytes.now) }
    ensures inside { IfSome result (λ end. end < length bytes.now) }
{
    bytes.iter().take(MAX_HEAD).position(|byte| *byte == b'\n')
}

// Whether they begin with the magic word and a space or a newline.
fn has_magic(bytes: &[u8]) -> bool
    ensures { result ≡ has_magic bytes.now }
{
    bytes.starts_with(MAGIC) && bytes.len() > MAGIC.len() && is_break(bytes[MAGIC.len()])
}

// Where the line of the head ends, after the magic word.
fn find_line(bytes: &[u8]) -> Result<usize, Y4mFault>
    ensures line { IfOk result (λ end. IsLine bytes.now end) }
    ensures fault { IfErr result (λ fault. head_fault bytes.now ≡ Some fault) }
{
    if !has_magic(bytes) {
        return Err(Y4mFault::NotY4m);
    }
    match line_end(bytes) {
        Some(end) => Ok(end),
        None => Err(Y4mFault::HeadTooLong),
    }
}

/// Reads the head with which the bytes begin (yuv4mpeg(5) of mjpegtools). They are those of a whole file, or at least
/// the first 4,096 of it.
///
/// The fault is the first of the head in the order of `Y4mFault`, none of them after `TooLarge`.
pub fn read_head(bytes: &[u8]) -> Result<Head, Y4mFault>
    ensures head { IfOk result (λ head. IsHead bytes.now head.info head.len) }
    ensures legal { IfOk result (λ head. IsLegal head.info.shape) }
    ensures rate { IfOk result (λ head. IsRate head.info.num head.info.den) }
    ensures par { IfOk result (λ head. IsPar head.info.par) }
    ensures fault { IfErr result (λ fault. head_fault bytes.now ≡ Some fault) }
{
    let end = find_line(bytes)?;
    let info = read_parameters(&bytes[MAGIC.len()..end])?;
    Ok(Head {
        info,
        len: end as u32 + 1,
    })
}
