// The filters that choose a clip for each frame.
ghost use Rattle.std.specs.Prelude.{◌≡◌, ◌<◌, length, IfOk, IsTrue};
ghost use Rattle.std.specs.List.{All};
ghost use Rattle.fv_plane.specs.Picture.{IsPicture};
ghost use Rattle.clip_term.specs.Choice as c;
ghost use Rattle.flt_choice.specs.Shown.{number_shown, picture_shown};

use crate::evaluate::evaluate;
use crate::value::{named_statistics, value_of};
use clip_term::{RunCompare, RunExpr, RunOp};
use fv_plane::Frame;
use std::alloc::{AllocError, Global};

// Of so many inputs, the place of the source of this number, or that of the test.
fn source_of(inputs: usize, value: Option<i64>) -> usize
    ensures number { result ≡ c.source_of inputs value }
    ensures inside { 0 < inputs → result < inputs }
{
    match value {
        Some(number) => {
            if number >= 0 && (number as u64) < inputs.saturating_sub(1) as u64 {
                1 + number as usize
            } else {
                0
            }
        }
        None => 0,
    }
}

fn holds(by: RunCompare, a: i64, b: i64) -> bool
    ensures { result ≡ c.holds by a b }
{
    match by {
        RunCompare::Equals => a == b,
        RunCompare::Greater => a > b,
        RunCompare::Less => a < b,
    }
}

// The place of the source that a comparison shows.
fn side_of(by: RunCompare, a: Option<i64>, b: Option<i64>) -> usize
    ensures number { result ≡ c.side_of by a b }
    ensures inside { result < 3 }
{
    match (a, b) {
        (Some(a), Some(b)) => { if holds(by, a, b) { 1 } else { 2 } }
        _ => 2,
    }
}

// The place of the input that is shown at frame `n`.
#[tactic(auto, using(clip_term::proofs::WordLemmas::tree_again))]
fn number_shown(alloc: Global, op: &RunOp, n: u32, inputs: &[Frame]) -> Result<usize, AllocError>
    requires { IsTrue (c.run_inputs (c.run_act op.now) (length inputs.now)) }
    ensures number { IfOk result (λ i. i ≡ number_shown (c.run_act op.now) n inputs.now) }
    ensures inside { IfOk result (λ i. i < length inputs.now) }
{
    let test = &inputs[0];
    match op {
        RunOp::Select { expr } => Ok(source_of(inputs.len(), value_of(alloc, expr, n, test)?)),
        RunOp::Filter { left, op, right } => {
            let table = named_statistics(alloc, test, left, right)?;
            Ok(side_of(*op, evaluate(left, n, &table), evaluate(right, n, &table)))
        }
    }
}

// Each input is a picture.
fn are_pictures(inputs: &[Frame])
    ensures { All IsPicture inputs.now }
{
    for input in inputs {
        // Called for what its contract says.
        let _ = input.shape();
    }
}

/// The frame that is shown at `n`, which is shared: no sample is copied. An `Err` is out of memory, or more shares than
/// can be counted.
pub fn make_run(alloc: Global, op: &RunOp, n: u32, inputs: &[Frame]) -> Result<Frame, AllocError>
    requires { IsTrue (c.run_inputs (c.run_act op.now) (length inputs.now)) }
    ensures made { IfOk result (λ made. made ≡ picture_shown (c.run_act op.now) n inputs.now) }
    ensures whole { All IsPicture inputs.now }
{
    are_pictures(inputs);
    let shown = number_shown(alloc, op, n, inputs)?;
    inputs[shown].share()
}
