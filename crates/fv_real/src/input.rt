// What a source of the system reads: an open file, or standard input.
ghost use Rattle.std.specs.Prelude.{◌≤◌, IfOk, length};

use std::fs::File;
use std::io::{self, ErrorKind, Read, Seek, SeekFrom};
use std::rt::Stdin;

/// How many bytes of standard input are read at a time to skip them.
const SKIP_PIECE: usize = 8_192;

/// An open file, or standard input, which is read once from its start to its end.
#[derive(Drop)]
pub(crate) enum Input {
    File(File),
    Standard(Stdin),
}

// Goes past the next `size` bytes of a file, or to its end where it has fewer, and answers how many these were. The
// bytes aren't read.
fn seek_past(file: &mut File, size: u64) -> io::Result<u64>
    ensures { IfOk result (λ count. count ≤ size) }
{
    let start = file.stream_position()?;
    let end = file.seek(SeekFrom::End(0))?;
    let place = start.saturating_add(size).min(end.max(start));
    file.seek(SeekFrom::Start(place))?;
    Ok(place - start)
}

// Reads and drops the next `size` bytes, or all to the end where there are fewer, and answers how many these were.
fn read_past(input: &mut Stdin, size: u64) -> io::Result<u64>
    ensures { IfOk result (λ count. count ≤ size) }
{
    let mut scratch = [0; SKIP_PIECE];
    let mut passed = 0;
    while passed < size {
        let wanted = (size - passed).min(SKIP_PIECE as u64);
        let count = input.read(&mut scratch[..wanted as usize])?;
        if count == 0 {
            break;
        }
        passed += count as u64;
    }
    Ok(passed)
}

impl Input {
    /// Reads into the front of a buffer, by one call of the system.
    pub(crate) fn read(&mut self, buf: &mut [u8]) -> io::Result<usize>
        ensures { IfOk result (λ count. count ≤ length buf.new) }
    {
        match self {
            Input::File(file) => file.read(buf),
            Input::Standard(input) => input.read(buf),
        }
    }

    /// Goes back to the first byte. Standard input has no way back, also where it is a file.
    pub(crate) fn rewind(&mut self) -> io::Result<()> {
        match self {
            Input::File(file) => file.rewind(),
            Input::Standard(_) => Err(io::Error::from(ErrorKind::NotSeekable)),
        }
    }

    /// Goes past the next `size` bytes, or to the end where there are fewer, and answers how many these were.
    pub(crate) fn skip(&mut self, size: u64) -> io::Result<u64>
        ensures { IfOk result (λ count. count ≤ size) }
    {
        match self {
            Input::File(file) => seek_past(file, size),
            Input::Standard(input) => read_past(input, size),
        }
    }
}
