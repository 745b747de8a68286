// Reading on until a buffer is full or the bytes end.
ghost use Rattle.std.specs.Prelude.{◌≡◌, ◌+◌, ◌≤◌, length, drop, IfOk, OnOk, OnErr};
ghost use Rattle.std.specs.Option.{ForSome};
ghost use Rattle.fv_io.specs.Source.{KeepsSource, IsSteady, SourceFailed};
ghost use Rattle.fv_io.specs.Reading.{Fills};

use crate::{Failed, Source};

/// Reads until the buffer is full or the source ends, and answers how many bytes were read: fewer than the buffer can
/// hold only at the end.
pub fn read_full<S: Source>(source: &mut S, buf: &mut [u8]) -> Result<usize, Failed>
    ensures bound { IfOk result (λ count. count ≤ length buf.new) }
    ensures told { IfOk result (λ count. ForSome (S.bytes source.old) (λ told.
        Fills (drop (S.place source.old) told) count buf.new)) }
    ensures moved { IfOk result (λ count. S.place source.new ≡ S.place source.old + count) }
    ensures keeps { KeepsSource S.Source source.old source.new }
    ensures steady { OnOk result (IsSteady S.Source source.old source.new) }
    ensures failed { OnErr result (SourceFailed S.Source source.old source.new) }
{
    let mut have = 0;
    while have < buf.len() {
        let count = source.read(&mut buf[have..])?;
        if count == 0 {
            break;
        }
        have += count;
    }
    Ok(have)
}
