// `judge`: whether lines follow one another to the end of a text.
ghost use Rattle.std.specs.Prelude.{◌≡◌, ◌==◌, ◌<◌, ◌≤◌, ℕ, length, IfOk, IfSome};
ghost use Rattle.std.specs.List.{position};
ghost use Rattle.clip_graph.specs.Plan.{IsPlan};
ghost use Rattle.run_text.specs.Journal.{Judges};
ghost use Rattle.run_text.specs.Progress.{Progress, unread};
ghost use Rattle.run_check.specs.Stages.{StandsFor};
ghost use Rattle.run_check.specs.Steps.{StepsTo};

use crate::tracker::Tracker;
use clip_graph::Graph;
use run_text::{Verdict, read_line};
use std::alloc::AllocError;

fn first_newline(text: &[u8]) -> Option<usize>
    ensures { result ≡ position (λ byte. byte == 10) text.now }
{
    text.iter().position(|byte| *byte == b'\n')
}

// Reads the first line, and answers how many bytes it has with its end. None comes where it can't come next.
fn step(
    tracker: &mut Tracker,
    graph: &Graph,
    root: u32,
    rest: &[u8],
) -> Result<Option<usize>, AllocError>
    requires plan { IsPlan graph.now }
    requires root { root < length graph.now }
    ensures inside { IfOk result (λ found. IfSome found (λ count. (0 < count) × (count ≤ length rest.now))) }
    ensures steps { (capacity : ℕ) (p : Progress) → StandsFor graph.now root capacity tracker.old p → IfOk result
        (StepsTo graph.now root capacity (StandsFor graph.now root capacity tracker.new) p rest.now) }
{
    let Some(end) = first_newline(rest) else {
        return Ok(None);
    };
    let (front, _) = rest.split_at(end);
    let Some(line) = read_line(front) else {
        return Ok(None);
    };
    match tracker.read(graph, root, &line) {
        Ok(true) => Ok(Some(end + 1)),
        Ok(false) => Ok(None),
        Err(AllocError) => Err(AllocError),
    }
}

/// Judges a text, of which nothing was read yet. An `Err` is out of memory.
pub(crate) fn judge(
    tracker: &mut Tracker,
    graph: &Graph,
    root: u32,
    text: &[u8],
) -> Result<Verdict, AllocError>
    requires plan { IsPlan graph.now }
    requires root { root < length graph.now }
    ensures { (capacity : ℕ) → StandsFor graph.now root capacity tracker.old unread
        → IfOk result (Judges graph.now root capacity text.now) }
{
    let mut rest = text;
    let mut line = 1;
    while !rest.is_empty() {
        match step(tracker, graph, root, rest) {
            Ok(Some(count)) => {
                let (_, back) = rest.split_at(count);
                rest = back;
            }
            Ok(None) => return Ok(Verdict::No { line }),
            Err(AllocError) => return Err(AllocError),
        }
        line += 1;
    }
    if line == 1 {
        return Ok(Verdict::No { line });
    }
    Ok(Verdict::Yes)
}
