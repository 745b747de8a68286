// The self test: a render in memory, digested.
ghost use Rattle.std.specs.Prelude.{◌≡◌, IfOk, OnOk, IfErr, IsErrOf, string_bytes};
ghost use Rattle.fv_io.specs.Sink.{IsLater};
ghost use Rattle.serve_app.specs.SelfTest.{IsSelfLine, PutsSelfLine, SelfTestShows};
ghost use Rattle.serve_app.specs.Stop.{IsByScript};

use crate::render::render_alone;
use fv_io::{Failed, Sink, Text};
use self_test::{DigestSink, workload};
use serve_text::Stop;
use std::alloc::{AllocError, Global};

// How many frames the cache holds.
const CACHE: u32 = 64;

// The line of the self test of this number.
fn line_of(alloc: Global, number: u32) -> Result<String, AllocError>
    ensures { IfOk result (λ line. IsSelfLine number (string_bytes line)) }
{
    let mut files = workload(alloc, number)?;
    let script = Text::from_str(alloc, "self.avs")?;
    let mut sink = DigestSink::new();
    let mut journal = None;
    match render_alone(alloc, &mut files, &mut sink, &script, CACHE, &mut journal) {
        Ok(all) => sink.line(alloc, all.frames),
        Err(_) => Err(AllocError),
    }
}

/// Renders the self test's script over its files in memory, and puts the line that tells the stream's length and digest.
pub(crate) fn put_self_test<K: Sink>(alloc: Global, out: &mut K, number: u32) -> Result<(), Stop>
    ensures whole { OnOk result (PutsSelfLine K.Sink out.old out.new number) }
    ensures stop { IfErr result (SelfTestShows K.Sink out.old out.new number) }
    ensures unfailed { (IsErrOf result Stop.Write → ⊥) → K.faults out.new ≡ K.faults out.old }
    ensures inside { IfErr result (λ stop. IsByScript stop → ⊥) }
    ensures later { IsLater K.Sink out.old out.new }
{
    let line = line_of(alloc, number)?;
    match out.put(line.as_bytes()) {
        Ok(()) => Ok(()),
        Err(Failed) => Err(Stop::Write),
    }
}
