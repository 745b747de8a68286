// `read_journal`: all bytes of a source, up to a limit.
ghost use Rattle.std.specs.Prelude.{◌≡◌, ◌+◌, ◌<◌, ◌≤◌, [], true, false, Ok, length, drop, IfOk, OnOk, IsErrOf};
ghost use Rattle.std.specs.Option.{ForSome};
ghost use Rattle.fv_io.specs.Source.{KeepsSource, IsSteady, SourceFailed};
ghost use Rattle.serve_replay.specs.Verdicts.{longest, with_rest};

use fv_io::{Source, read_full};
use std::alloc::{AllocError, Global};

/// How many bytes a text may have.
const LONGEST: usize = 67_108_864;

/// How many bytes are read at a time.
const PIECE: usize = 65_536;

/// Why a text was not read.
#[derive(Clone, Copy, Debug, PartialEq, Eq)]
pub enum JournalStop {
    /// It has more than 67,108,864 bytes.
    TooLong,
    /// A read failed.
    Read,
    /// Out of memory.
    Memory,
}

// Adds the next bytes of a source to a text, as many as the buffer holds, and answers whether there were so many. Fewer
// come only at the end.
fn add_piece<S: Source>(
    source: &mut S,
    text: &mut Vec<u8>,
    buf: &mut [u8],
) -> Result<bool, JournalStop>
    ensures told { OnOk result (ForSome (S.bytes source.old) (λ told.
        with_rest text.new.items told (S.place source.new) ≡ with_rest text.old.items told (S.place source.old))) }
    ensures full { result ≡ Ok true → length text.new.items ≡ length text.old.items + length buf.old }
    ensures fewer { result ≡ Ok false → length text.new.items < length text.old.items + length buf.old }
    ensures ended { result ≡ Ok false → ForSome (S.bytes source.old) (λ told. drop (S.place source.new) told ≡ []) }
    ensures room { length buf.new ≡ length buf.old }
    ensures short { IsErrOf result JournalStop.TooLong → ⊥ }
    ensures read { IsErrOf result JournalStop.Read → SourceFailed S.Source source.old source.new }
    ensures steady { (IsErrOf result JournalStop.Read → ⊥) → IsSteady S.Source source.old source.new }
    ensures keeps { KeepsSource S.Source source.old source.new }
{
    let Ok(count) = read_full(source, buf) else {
        return Err(JournalStop::Read);
    };
    let Ok(()) = text.extend_from_slice(&buf[..count]) else {
        return Err(JournalStop::Memory);
    };
    Ok(count == buf.len())
}

// Adds all bytes of a source to a text that is empty, by way of a buffer, where they are few enough.
fn read_all<S: Source>(
    source: &mut S,
    text: &mut Vec<u8>,
    buf: &mut [u8],
) -> Result<(), JournalStop>
    requires start { S.place source.old ≡ 0 }
    requires empty { text.old.items ≡ [] }
    requires some { 0 < length buf.old }
    ensures told { OnOk result (ForSome (S.bytes source.old) (λ told. text.new.items ≡ told)) }
    ensures short { OnOk result (length text.new.items ≤ longest) }
    ensures long { IsErrOf result JournalStop.TooLong → ForSome (S.bytes source.old) (λ told. longest < length told) }
    ensures read { IsErrOf result JournalStop.Read → SourceFailed S.Source source.old source.new }
    ensures steady { (IsErrOf result JournalStop.Read → ⊥) → IsSteady S.Source source.old source.new }
    ensures keeps { KeepsSource S.Source source.old source.new }
{
    while text.len() <= LONGEST {
        let room = (LONGEST + 1 - text.len()).min(buf.len());
        match add_piece(source, text, &mut buf[..room]) {
            Ok(true) => {}
            Ok(false) => return Ok(()),
            Err(stop) => return Err(stop),
        }
    }
    Err(JournalStop::TooLong)
}

// The buffer that pieces go through.
fn buffer(alloc: Global) -> Result<Vec<u8>, AllocError>
    ensures { IfOk result (λ buf. 0 < length buf.items) }
{
    vec![in alloc; 0u8; PIECE]
}

/// All bytes of a source that was just fetched. It reads one byte more than a text may have, at most, and leaves the
/// source open, at any place.
///
/// `TooLong` means that there are more than 67,108,864 bytes, `Read` that the source failed, and `Memory` out of memory.
/// No fault of the source is counted but with `Read`.
pub fn read_journal<S: Source>(alloc: Global, source: &mut S) -> Result<Vec<u8>, JournalStop>
    requires { S.place source.old ≡ 0 }
    ensures told { IfOk result (λ text. ForSome (S.bytes source.old) (λ told. text.items ≡ told)) }
    ensures short { IfOk result (λ text. length text.items ≤ longest) }
    ensures long { IsErrOf result JournalStop.TooLong → ForSome (S.bytes source.old) (λ told. longest < length told) }
    ensures read { IsErrOf result JournalStop.Read → SourceFailed S.Source source.old source.new }
    ensures steady { (IsErrOf result JournalStop.Read → ⊥) → IsSteady S.Source source.old source.new }
    ensures keeps { KeepsSource S.Source source.old source.new }
{
    let Ok(mut buf) = buffer(alloc) else {
        return Err(JournalStop::Memory);
    };
    let mut text = Vec::new(alloc);
    match read_all(source, &mut text, &mut buf) {
        Ok(()) => Ok(text),
        Err(stop) => Err(stop),
    }
}
