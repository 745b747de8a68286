// The lines of a journal.
ghost use Rattle.std.specs.Prelude.{◌≡◌, ◌+◌, ◌≤◌, ◌++◌, [], ◌∷◌, length, flat_map, codes};
ghost use Rattle.run_text.specs.Lines.{numbers, of_key, line_text, event_text, AreSmall, EventFits, LineFits};
ghost use Rattle.run_text.specs.declared.line.Line.TheVariants.{Workers as OfWorkers, Window as OfWindow};

use crate::gather::LINE;
use arrayvec::ArrayString;
use fv_plane::Key;
use itoa::Buffer;
use serve_machine::{Event, WindowStop};

// The pieces, one after the other.
fn joined(pieces: &[&str]) -> ArrayString<LINE>
    requires { length (flat_map (λ piece. piece.now) pieces.now) ≤ LINE }
    ensures { result.bytes ≡ flat_map (λ piece. piece.now) pieces.now }
{
    let mut line = ArrayString::new();
    for piece in pieces {
        line.push_str(piece);
    }
    line
}

#[tactic(auto, using(crate::proofs::PrintLemmas::one_line))]
fn line_1(name: &str, a: u32) -> ArrayString<LINE>
    requires { length name.now ≤ 16 }
    ensures { result.bytes ≡ (name.now ++ numbers (a ∷ [])) ++ codes "\n" }
{
    let mut first = Buffer::new();
    joined(&[name, " ", first.format(a), "\n"])
}

#[tactic(auto, using(crate::proofs::PrintLemmas::two_line))]
fn line_2(name: &str, a: u32, b: u32) -> ArrayString<LINE>
    requires { length name.now ≤ 16 }
    ensures { result.bytes ≡ (name.now ++ numbers (a ∷ b ∷ [])) ++ codes "\n" }
{
    let mut first = Buffer::new();
    let mut second = Buffer::new();
    joined(&[name, " ", first.format(a), " ", second.format(b), "\n"])
}

#[tactic(auto, using(crate::proofs::PrintLemmas::three_line))]
fn line_3(name: &str, a: u32, b: u32, c: u32) -> ArrayString<LINE>
    requires { length name.now ≤ 16 }
    ensures text { result.bytes ≡ (name.now ++ numbers (a ∷ b ∷ c ∷ [])) ++ codes "\n" }
    ensures fits { AreSmall (a ∷ b ∷ c ∷ []) }
{
    let mut first = Buffer::new();
    let mut second = Buffer::new();
    let mut third = Buffer::new();
    joined(&[
        name,
        " ",
        first.format(a),
        " ",
        second.format(b),
        " ",
        third.format(c),
        "\n",
    ])
}

fn key_line(name: &str, worker: u32, key: Key) -> ArrayString<LINE>
    requires { length name.now ≤ 16 }
    ensures text { result.bytes ≡ (name.now ++ of_key worker key) ++ codes "\n" }
    ensures fits { AreSmall (worker ∷ key.node ∷ key.n ∷ []) }
{
    line_3(name, worker, key.node, key.n)
}

// The line of a worker that failed.
#[tactic(auto, using(crate::proofs::PrintLemmas::memory_line, crate::proofs::PrintLemmas::read_line, crate::proofs::PrintLemmas::changed_line))]
fn fail_line(worker: u32, stop: WindowStop) -> ArrayString<LINE>
    ensures text { result.bytes ≡ event_text (Event.Fail worker stop) ++ codes "\n" }
    ensures fits { EventFits (Event.Fail worker stop) }
{
    let mut first = Buffer::new();
    let worker = first.format(worker);
    match stop {
        WindowStop::Memory => joined(&["fail ", worker, " memory\n"]),
        WindowStop::Read { node } => {
            let mut second = Buffer::new();
            joined(&["fail ", worker, " read ", second.format(node), "\n"])
        }
        WindowStop::Changed {
            node,
            frame,
            want,
            got,
        } => {
            let mut second = Buffer::new();
            let mut third = Buffer::new();
            let mut fourth = Buffer::new();
            let mut fifth = Buffer::new();
            joined(&[
                "fail ",
                worker,
                " changed ",
                second.format(node),
                " ",
                third.format(frame),
                " ",
                fourth.format(want),
                " ",
                fifth.format(got),
                "\n",
            ])
        }
    }
}

/// The line of an event.
pub(crate) fn event_line(event: &Event) -> ArrayString<LINE>
    ensures text { result.bytes ≡ event_text event.now ++ codes "\n" }
    ensures fits { EventFits event.now }
{
    match *event {
        Event::Hit { worker, key } => key_line("hit", worker, key),
        Event::Claim { worker, key } => key_line("claim", worker, key),
        Event::Evict { worker, key } => key_line("evict", worker, key),
        Event::Publish { worker, key } => key_line("publish", worker, key),
        Event::Abandon { worker, key } => key_line("abandon", worker, key),
        Event::Enter {
            worker,
            node,
            instance,
        } => line_3("enter", worker, node, instance),
        Event::Leave {
            worker,
            node,
            instance,
        } => line_3("leave", worker, node, instance),
        Event::Take { worker, n } => line_2("take", worker, n),
        Event::Deliver { worker, n } => line_2("deliver", worker, n),
        Event::Fail { worker, stop } => fail_line(worker, stop),
    }
}

/// The line of the workers.
pub(crate) fn workers_line(workers: u32) -> ArrayString<LINE>
    ensures text { result.bytes ≡ line_text (OfWorkers workers) ++ codes "\n" }
    ensures fits { LineFits (OfWorkers workers) }
{
    line_1("workers", workers)
}

/// The line of a window.
pub(crate) fn window_line(first: u32, count: u32) -> ArrayString<LINE>
    ensures text { result.bytes ≡ line_text (OfWindow first count) ++ codes "\n" }
    ensures fits { LineFits (OfWindow first count) }
{
    line_2("window", first, count)
}
