//! The program: `run` over the real files and streams.
#![tactic(auto)]

use fv_io::{Sink, Text};
use fv_real::{RealFiles, RealSink};
use serve_app::{OpenGate, run};
use std::alloc::{AllocError, Global};
use std::env;
use std::io::ErrorKind;
use std::process::ExitCode;

// The words after the program's name. Where one is no text there are none, which asks for nothing.
fn words_of(rt: &HostRuntime, alloc: Global) -> Result<Vec<Text>, AllocError> {
    let mut words = Vec::new(alloc);
    let args = match env::args(rt) {
        Ok(args) => args,
        Err(error) if error.kind() == ErrorKind::OutOfMemory => return Err(AllocError),
        Err(_) => return Ok(words),
    };
    for arg in args.skip(1) {
        words.push(Text::from_str(alloc, arg.as_str())?)?;
    }
    Ok(words)
}

// Has the memory of frames used again. A freed block that is larger than all that were freed before goes back to the
// system, and the next one is mapped anew, page by page. So a large one is freed at the start, in which nothing is
// written. Where there is no room for it, frames are made more slowly.
fn keep_freed_memory(alloc: Global) {
    let _ = Vec::<u8>::with_capacity(alloc, 31 << 20);
}

fn main(rt: HostRuntime) -> ExitCode {
    let alloc = rt.alloc();
    keep_freed_memory(alloc);
    let mut err = RealSink::new(rt.stderr());
    let Ok(words) = words_of(&rt, alloc) else {
        let _ = err.put(b"no memory\n");
        return ExitCode::from(6);
    };
    let mut files = RealFiles::new(&rt, rt.stdin());
    let mut out = RealSink::new(rt.stdout());
    let ending = run(
        &rt, alloc, &words, &mut files, &mut out, &mut err, &OpenGate,
    );
    ExitCode::from(ending.status)
}
