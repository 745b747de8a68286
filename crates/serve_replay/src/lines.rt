// The lines that say what a text is.
ghost use Rattle.std.specs.Prelude.{◌≡◌, ◌+◌, ◌≤◌, ◌++◌, length, decimal, count_by};
ghost use Rattle.serve_replay.specs.Verdicts as l;

use arrayvec::ArrayString;
use itoa::Buffer;

/// The most bytes of a line. A number has at most 40.
pub(crate) const LINE: usize = 64;

// How many lines end in a text.
fn newlines(text: &[u8]) -> usize
    ensures { result ≡ count_by l.is_newline text.now }
{
    text.iter().filter(|byte| **byte == b'\n').count()
}

// A number between two texts.
fn line_of(front: &str, number: u64, back: &str) -> ArrayString<LINE>
    requires { length front.now + length back.now ≤ 24 }
    ensures { result.bytes ≡ front.now ++ (decimal number ++ back.now) }
{
    let mut digits = Buffer::new();
    let mut line = ArrayString::new();
    line.push_str(front);
    line.push_str(digits.format(number));
    line.push_str(back);
    line
}

/// The line of a journal.
pub(crate) fn run_line(text: &[u8]) -> ArrayString<LINE>
    ensures { result.bytes ≡ l.run_line text.now }
{
    line_of("run: ", newlines(text) as u64, " lines\n")
}

/// The line of a text that stops being a journal at this line.
pub(crate) fn wrong_line(line: u64) -> ArrayString<LINE>
    ensures { result.bytes ≡ l.wrong_line line }
{
    line_of("not a run: line ", line, "\n")
}
