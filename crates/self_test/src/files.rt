// The files of the self test.
ghost use Rattle.std.specs.Prelude.{◌≡◌, ◌++◌, Some, IfOk, OnOk};
ghost use Rattle.fv_io.specs.FilesState.{told_world};
ghost use Rattle.self_test.specs.Workload as w;

use fv_io::{MemFiles, Text};
use std::alloc::{AllocError, Global};

const HEAD: &str = "YUV4MPEG2 W320 H240 F25:1 Ip A1:1 C420jpeg\n";

const FRAMES: u32 = 96;
// Samples of a frame of 320x240, 4:2:0.
const FRAME_SIZE: u32 = 115_200;

const FRAME_HEAD: &str = "FRAME\n";

const SCRIPT: &str =
    "a = Y4MSource(\"in.y4m\")\nb = a.Reverse.FlipVertical\nc = Merge(a, b).Crop(8, 8, -8, -8)\nd = Interleave(c, b.Crop(8, 8, -8, -8).Invert(\"Y\"))\nd.SelectEvery(3, 0, 2).Loop(4)\n";

// The next state of the generator.
fn next(state: u32) -> u32
    ensures { result ≡ w.next state }
{
    ((1_664_525 * state as u64 + 1_013_904_223) % (1 << 32)) as u32
}

// Adds the samples of the next states, and answers the state after them.
fn add_samples(bytes: &mut Vec<u8>, count: u32, state: u32) -> Result<u32, AllocError>
    ensures state { IfOk result (λ last. last ≡ w.after count state) }
    ensures bytes { IfOk result (λ last. bytes.new.items ≡ bytes.old.items ++ w.samples count state) }
{
    let mut state = state;
    for _done in 0..count {
        state = next(state);
        bytes.push((state >> 24) as u8)?;
    }
    Ok(state)
}

// Adds frames, from a first state.
fn add_frames(bytes: &mut Vec<u8>, count: u32, size: u32, state: u32) -> Result<(), AllocError>
    ensures { OnOk result (bytes.new.items ≡ bytes.old.items ++ w.frames count size state) }
{
    let mut state = state;
    for _done in 0..count {
        bytes.extend_from_slice(FRAME_HEAD.as_bytes())?;
        state = add_samples(bytes, size, state)?;
    }
    Ok(())
}

// The bytes of the stream, from a first state.
fn stream_from(alloc: Global, number: u32) -> Result<Vec<u8>, AllocError>
    ensures { IfOk result (λ bytes. bytes.items ≡ w.stream_from number) }
{
    let mut bytes = Vec::with_capacity(alloc, 11_100_000)?;
    bytes.extend_from_slice(HEAD.as_bytes())?;
    add_frames(&mut bytes, FRAMES, FRAME_SIZE, number)?;
    Ok(bytes)
}

/// The files of the self test of this number: the stream `in.y4m` and the script `self.avs`. An `Err` is out of memory.
pub fn workload(alloc: Global, number: u32) -> Result<MemFiles, AllocError>
    ensures world { IfOk result (λ files. told_world files ≡ Some (w.self_world number)) }
    ensures given { IfOk result (λ files. files.given ≡ 0) }
{
    let mut files = MemFiles::new(alloc);
    let stream = stream_from(alloc, number)?;
    let name = Text::from_str(alloc, "in.y4m")?;
    files.add(name, stream, 65_536, Vec::new(alloc))?;
    let script = SCRIPT.as_bytes().to_vec(alloc)?;
    let name = Text::from_str(alloc, "self.avs")?;
    files.add(name, script, 65_536, Vec::new(alloc))?;
    Ok(files)
}
