// The script of a file, read as a text of at most 1,048,576 bytes.
ghost use Rattle.std.specs.Prelude.{◌≡◌, ◌≤◌, ◌+◌, ◌^◌, length, Some, IfOk, OnOk, IsErrOf};
ghost use Rattle.std.specs.Option.{ForSome};
ghost use Rattle.fv_io.specs.Faults.{HasRisen};
ghost use Rattle.fv_io.specs.Source.{KeepsSource, IsSteady, SourceFailed};
ghost use Rattle.avs_values.specs.Values.{text_limit};
ghost use Rattle.avs_meaning.specs.State.{script_in};
ghost use Rattle.avs_state.specs.Hosts.{TellsScript, CountsNone};
ghost use Rattle.avs_files.specs.Answers.{AnswersScript};

use crate::files::HeldFiles;
use avs_meaning::FileKind;
use avs_state::HostFault;
use fv_io::{FetchFault, Source, Text, read_full};
use std::alloc::Global;

/// How many bytes a script may have.
const LONGEST: usize = 1_048_576;

// One byte more than a script may have.
fn room() -> usize
    ensures { result ≡ 2 ^ 20 + 1 }
{
    LONGEST + 1
}

// The script of a source just fetched, read into a buffer that has room for one byte more than a script may have.
fn read_into<S: Source>(alloc: Global, source: &mut S, buf: &mut [u8]) -> Result<Text, HostFault>
    requires start { S.place source.old ≡ 0 }
    requires room { length buf.old ≡ 2 ^ 20 + 1 }
    ensures told { ForSome (S.bytes source.old) (λ told. TellsScript (script_in (Some told)) result) }
    ensures short { IfOk result (λ text. length text ≤ text_limit) }
    ensures read { IsErrOf result HostFault.Read → SourceFailed S.Source source.old source.new }
    ensures steady { (IsErrOf result HostFault.Read → ⊥) → IsSteady S.Source source.old source.new }
    ensures keeps { KeepsSource S.Source source.old source.new }
{
    let Ok(count) = read_full(source, buf) else {
        return Err(HostFault::Read);
    };
    if count == buf.len() {
        return Err(HostFault::Script(FileKind::ScriptTooLong));
    }
    let Ok(text) = std::str::from_utf8(&buf[..count]) else {
        return Err(HostFault::Script(FileKind::NotUtf8));
    };
    match Text::from_str(alloc, text) {
        Ok(text) => Ok(text),
        Err(_) => Err(HostFault::Memory),
    }
}

// The script of a source just fetched.
fn read_source<S: Source>(alloc: Global, source: &mut S) -> Result<Text, HostFault>
    requires { S.place source.old ≡ 0 }
    ensures told { ForSome (S.bytes source.old) (λ told. TellsScript (script_in (Some told)) result) }
    ensures short { IfOk result (λ text. length text ≤ text_limit) }
    ensures read { IsErrOf result HostFault.Read → SourceFailed S.Source source.old source.new }
    ensures steady { (IsErrOf result HostFault.Read → ⊥) → IsSteady S.Source source.old source.new }
    ensures keeps { KeepsSource S.Source source.old source.new }
{
    let Ok(mut buf) = vec![in alloc; 0u8; room()] else {
        return Err(HostFault::Memory);
    };
    read_into(alloc, source, &mut buf)
}

/// The text of a script's file, which is closed again.
pub fn read_script<H: HeldFiles>(
    alloc: Global,
    files: &mut H,
    name: &Text,
) -> Result<Text, HostFault>
    ensures told { AnswersScript (H.world files.old) name.now result }
    ensures short { IfOk result (λ text. length text ≤ text_limit) }
    ensures read { IsErrOf result HostFault.Read → HasRisen (H.faults files.old) (H.faults files.new) }
    ensures later { H.faults files.old ≤ H.faults files.new }
    ensures steady { CountsNone result (H.faults files.old) (H.faults files.new) }
    ensures fetched { OnOk result (H.fetched files.new ≡ H.fetched files.old + 1) }
    ensures more { H.fetched files.old ≤ H.fetched files.new }
    ensures once { H.fetched files.new ≤ H.fetched files.old + 1 }
    ensures given { H.given files.new ≡ H.given files.old }
    ensures world { H.world files.new ≡ H.world files.old }
    ensures borrow { H.borrow files.new ≡ H.borrow files.old }
{
    let mut source = match files.fetch(name) {
        Ok(source) => source,
        Err(FetchFault::NotThere) => return Err(HostFault::Script(FileKind::NotThere)),
        Err(FetchFault::Failed) => return Err(HostFault::Read),
        Err(FetchFault::Memory) => return Err(HostFault::Memory),
    };
    let text = read_source(alloc, &mut source);
    files.close(source);
    text
}
