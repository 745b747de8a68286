// Lines are gathered, and put together.
ghost use Rattle.std.specs.Prelude.{◌≡◌, ◌≤◌, ◌++◌, [], length, OnOk, OnErr};
ghost use Rattle.fv_io.specs.Sink.{Puts, PutsPrefix, SinkFailed, IsLater};
ghost use Rattle.run_text.specs.Gathered.{PutsAllBut};

use arrayvec::ArrayString;
use fv_io::{Failed, Sink};

/// The bytes that are gathered at most.
pub(crate) const BLOCK: usize = 16_384;

/// The most bytes of a line.
pub(crate) const LINE: usize = 256;

/// Puts what was gathered.
pub(crate) fn put_all<K: Sink>(out: &mut K, buf: &mut ArrayString<BLOCK>) -> Result<(), Failed>
    ensures put { OnOk result (Puts K.Sink out.old out.new buf.old.bytes) }
    ensures empty { OnOk result (buf.new.bytes ≡ []) }
    ensures cut { OnErr result (PutsPrefix K.Sink out.old out.new buf.old.bytes) }
    ensures steady { OnOk result (K.faults out.new ≡ K.faults out.old) }
    ensures failed { OnErr result (SinkFailed K.Sink out.old out.new) }
    ensures later { IsLater K.Sink out.old out.new }
{
    match out.put(buf.as_str().as_bytes()) {
        Ok(()) => {
            buf.clear();
            Ok(())
        }
        Err(Failed) => Err(Failed),
    }
}

/// Gathers a line, and before it puts the others where there is no room.
pub(crate) fn add<K: Sink>(
    out: &mut K,
    buf: &mut ArrayString<BLOCK>,
    line: &ArrayString<LINE>,
) -> Result<(), Failed>
    ensures put { OnOk result
        (PutsAllBut K.Sink out.old out.new (buf.old.bytes ++ line.now.bytes) buf.new.bytes) }
    ensures cut { OnErr result (PutsPrefix K.Sink out.old out.new buf.old.bytes) }
    ensures steady { OnOk result (K.faults out.new ≡ K.faults out.old) }
    ensures failed { OnErr result (SinkFailed K.Sink out.old out.new) }
    ensures later { IsLater K.Sink out.old out.new }
{
    if line.len() > BLOCK - buf.len() {
        match put_all(out, buf) {
            Ok(()) => {}
            Err(Failed) => return Err(Failed),
        }
    }
    buf.push_str(line.as_str());
    Ok(())
}
