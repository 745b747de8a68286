// The lines on standard error. They allocate nothing, and a fault of the sink is ignored.
ghost use Rattle.std.specs.Prelude.{◌≡◌, ◌++◌, flat_map, codes, decimal};
ghost use Rattle.serve_text.specs.Lines.{Says, usage_line, script_line, file_line, input_line, changed_kind, stop_line};

use crate::stop::Stop;
use avs_meaning::{InputFault, ScriptKind};
use fv_io::{Sink, Text};
use itoa::Buffer;
use y4m_stream::Y4mFault;

const USAGE: &str =
    "usage: avsserve render SCRIPT [--cache C] [--threads T] [--report | --journal] [--plain] | info SCRIPT | selftest NUMBER | session SCRIPT LIST [--cache C] | replay SCRIPT JOURNAL [--cache C]\n";

// Puts the pieces one after the other, up to the first put that fails.
fn say<E: Sink>(err: &mut E, pieces: &[&str])
    ensures { Says E.Sink err.old err.new (flat_map (λ piece. piece.now) pieces.now) }
{
    for piece in pieces {
        if err.put(piece.as_bytes()).is_err() {
            return;
        }
    }
}

/// Says how the program is used.
pub fn say_usage<E: Sink>(err: &mut E)
    ensures { Says E.Sink err.old err.new usage_line }
{
    say(err, &[USAGE]);
}

// Says that the text of this name has a fault of this kind at this line.
fn say_script_kind<E: Sink>(err: &mut E, name: &Text, line: u32, kind: &str)
    ensures { Says E.Sink err.old err.new (codes "script fault: " ++ (name.now
        ++ (codes " line " ++ (decimal line ++ (codes ": " ++ (kind.now ++ codes "\n")))))) }
{
    let mut digits = Buffer::new();
    let line = digits.format(line);
    say(
        err,
        &[
            "script fault: ",
            name.as_str(),
            " line ",
            line,
            ": ",
            kind,
            "\n",
        ],
    );
}

// Says that an assertion failed, with its message.
fn say_assertion<E: Sink>(err: &mut E, name: &Text, line: u32, message: &str)
    ensures { Says E.Sink err.old err.new (script_line (ScriptKind.AssertFailed message.now) name.now line) }
{
    let mut digits = Buffer::new();
    let line = digits.format(line);
    say(
        err,
        &[
            "script fault: ",
            name.as_str(),
            " line ",
            line,
            ": AssertFailed: ",
            message,
            "\n",
        ],
    );
}

// Says what is wrong with the text of this name.
fn say_script<E: Sink>(err: &mut E, kind: &ScriptKind, name: &Text, line: u32)
    ensures { Says E.Sink err.old err.new (script_line kind.now name.now line) }
{
    match kind {
        ScriptKind::AssertFailed(message) => say_assertion(err, name, line, message.as_str()),
        _ => say_script_kind(err, name, line, kind.name()),
    }
}

// Says that the input has a fault of this kind.
fn say_input_kind<E: Sink>(err: &mut E, name: &Text, kind: &str)
    ensures { Says E.Sink err.old err.new
        (codes "input fault: " ++ (name.now ++ (codes ": " ++ (kind.now ++ codes "\n")))) }
{
    say(err, &["input fault: ", name.as_str(), ": ", kind, "\n"]);
}

// Says that the input has a fault of this kind, and which number or letter it is about.
fn say_input_detail<E: Sink>(err: &mut E, name: &Text, kind: &str, detail: &str)
    ensures { Says E.Sink err.old err.new (codes "input fault: " ++ (name.now
        ++ (codes ": " ++ ((kind.now ++ (codes " " ++ detail.now)) ++ codes "\n")))) }
{
    say(
        err,
        &[
            "input fault: ",
            name.as_str(),
            ": ",
            kind,
            " ",
            detail,
            "\n",
        ],
    );
}

// Says what is wrong with the bytes of the input.
fn say_y4m<E: Sink>(err: &mut E, name: &Text, fault: Y4mFault)
    ensures { Says E.Sink err.old err.new (input_line name.now (InputFault.Y4m fault)) }
{
    let kind = fault.name();
    match fault {
        Y4mFault::BadNumber(letter) => {
            let mut buf = [0; 4];
            say_input_detail(err, name, kind, letter.encode_utf8(&mut buf));
        }
        Y4mFault::BadFrame(frame) | Y4mFault::Truncated(frame) => {
            let mut digits = Buffer::new();
            say_input_detail(err, name, kind, digits.format(frame));
        }
        _ => say_input_kind(err, name, kind),
    }
}

// Says that the input ended at `got` when the frame was read again.
fn say_changed<E: Sink>(err: &mut E, name: &Text, frame: u32, want: u64, got: u64)
    ensures { Says E.Sink err.old err.new (file_line name.now (changed_kind frame want got)) }
{
    let mut frame_digits = Buffer::new();
    let mut want_digits = Buffer::new();
    let mut got_digits = Buffer::new();
    let frame = frame_digits.format(frame);
    let want = want_digits.format(want);
    let got = got_digits.format(got);
    say(
        err,
        &[
            "input fault: ",
            name.as_str(),
            ": Changed ",
            frame,
            " want ",
            want,
            " got ",
            got,
            "\n",
        ],
    );
}

// Says what is wrong with the input of this name.
fn say_input<E: Sink>(err: &mut E, name: &Text, fault: InputFault)
    ensures { Says E.Sink err.old err.new (input_line name.now fault) }
{
    match fault {
        InputFault::NotThere => say_input_kind(err, name, "NotThere"),
        InputFault::Y4m(fault) => say_y4m(err, name, fault),
    }
}

/// Says why a render stopped.
pub fn say_stop<E: Sink>(err: &mut E, stop: &Stop)
    ensures { Says E.Sink err.old err.new (stop_line stop.now) }
{
    match stop {
        Stop::Script { kind, name, line } => say_script(err, kind, name, *line),
        Stop::Input { name, fault } => say_input(err, name, *fault),
        Stop::Changed {
            name,
            frame,
            want,
            got,
        } => say_changed(err, name, *frame, *want, *got),
        Stop::File { name, fault } => say_input_kind(err, name, fault.name()),
        Stop::Read => say(err, &["read fault\n"]),
        Stop::Write => say(err, &["write fault\n"]),
        Stop::Memory => say(err, &["no memory\n"]),
    }
}
