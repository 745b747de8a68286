// The frames that a frame of a node is made of, one by one.
ghost use Rattle.std.specs.Prelude.{◌≡◌, ◌<◌, ◌≤◌, ◌+◌, ◌-◌, ◌*◌, [], ◌∷◌, length, map};
ghost use Rattle.std.specs.List.{All, range_with_len, slice_get};
ghost use Rattle.clip_term.specs.Terms.{act_of, time, asked};
ghost use Rattle.clip_term.specs.Refusals.{info_at};
ghost use Rattle.clip_term.specs.Time.{from_input, source_number, spliced, field_asked};
ghost use Rattle.clip_term.specs.Soft.{soft_asked};
ghost use Rattle.clip_graph.specs.Plan.{infos_among, IsKeyBelow, input_keys};
ghost use Rattle.clip_frames.specs.Asked.{IsShown, key_among, key_in_range};

use clip_graph::Graph;
use clip_term::{FieldOp, Op, Origin, SoftOp, TimeOp};
use flt_field::field_input;
use flt_time::source_number;
use fv_plane::{Info, Key};

// What is known of the clip of an input.
fn info_at(graph: &Graph, inputs: &[u32], input: usize) -> Info
    requires nodes { All (λ j. j < length graph.now) inputs.now }
    requires inside { input < length inputs.now }
    ensures { result ≡ info_at (infos_among graph.now inputs.now) input }
{
    graph.node(inputs[input]).info
}

// A frame of an input, by a number that may be past its last.
fn key_in_range(graph: &Graph, inputs: &[u32], input: usize, number: u64) -> Key
    requires nodes { All (λ j. j < length graph.now) inputs.now }
    requires inside { input < length inputs.now }
    ensures { result ≡ key_in_range graph.now inputs.now input number }
{
    let last = info_at(graph, inputs, input).frames.saturating_sub(1);
    Key {
        node: inputs[input],
        n: number.min(last as u64) as u32,
    }
}

// Frame `n` of the inputs one after the other: the input, and the number there.
fn spliced(graph: &Graph, inputs: &[u32], n: u32) -> (usize, u32)
    requires nodes { All (λ j. j < length graph.now) inputs.now }
    requires some { 0 < length inputs.now }
    ensures frame { from_input result.0 result.1 ≡ spliced 0 (infos_among graph.now inputs.now) n }
    ensures inside { result.0 < length inputs.now }
{
    let mut input = 0;
    let mut number = n;
    while input + 1 < inputs.len() {
        let frames = info_at(graph, inputs, input).frames;
        if number < frames {
            return (input, number);
        }
        number -= frames;
        input += 1;
    }
    (input, number)
}

// The frame that a filter of the group Time shows of one or two inputs.
fn shown_of_few(graph: &Graph, op: &TimeOp, inputs: &[u32], n: u32) -> Origin
    requires nodes { All (λ j. j < length graph.now) inputs.now }
    requires some { 1 ≤ length inputs.now }
    requires few { length inputs.now ≤ 2 }
    requires shown { IsShown (time op.now) (infos_among graph.now inputs.now) n }
    ensures origin { result ≡ source_number op.now (infos_among graph.now inputs.now) n }
    ensures inside { result.input < length inputs.now }
{
    let first = info_at(graph, inputs, 0);
    if inputs.len() == 1 {
        let infos = [first];
        return source_number(op, &infos, n);
    }
    let infos = [first, info_at(graph, inputs, 1)];
    source_number(op, &infos, n)
}

// The frame that a filter of the group Time shows.
fn time_key(graph: &Graph, op: &TimeOp, inputs: &[u32], n: u32) -> Key
    requires nodes { All (λ j. j < length graph.now) inputs.now }
    requires shown { IsShown (time op.now) (infos_among graph.now inputs.now) n }
    ensures { result ≡ key_among inputs.now (source_number op.now (infos_among graph.now inputs.now) n) }
{
    match op {
        TimeOp::Interleave => {
            let count = inputs.len();
            let n = n as usize;
            key_in_range(graph, inputs, n % count, (n / count) as u64)
        }
        TimeOp::UnalignedSplice | TimeOp::AlignedSplice => {
            let (input, number) = spliced(graph, inputs, n);
            key_in_range(graph, inputs, input, number as u64)
        }
        _ => {
            let origin = shown_of_few(graph, op, inputs, n);
            Key {
                node: inputs[origin.input as usize],
                n: origin.number,
            }
        }
    }
}

// The frame that a filter of the group Time shows, alone.
fn shown_at(graph: &Graph, op: &TimeOp, inputs: &[u32], n: u32, i: u32) -> Option<Key>
    requires nodes { All (λ j. j < length graph.now) inputs.now }
    requires shown { IsShown (time op.now) (infos_among graph.now inputs.now) n }
    ensures { result
        ≡ slice_get (key_among inputs.now (source_number op.now (infos_among graph.now inputs.now) n) ∷ []) i }
{
    if i > 0 {
        return None;
    }
    Some(time_key(graph, op, inputs, n))
}

// Frame `n` of the first input, alone.
fn first_at(graph: &Graph, inputs: &[u32], n: u32, i: u32) -> Option<Key>
    requires nodes { All (λ j. j < length graph.now) inputs.now }
    requires some { 0 < length inputs.now }
    ensures { result ≡ slice_get (key_in_range graph.now inputs.now 0 n ∷ []) i }
{
    if i > 0 {
        return None;
    }
    Some(key_in_range(graph, inputs, 0, n as u64))
}

// Frame `n` of each input.
fn each_at(graph: &Graph, inputs: &[u32], n: u32, i: u32) -> Option<Key>
    requires nodes { All (λ j. j < length graph.now) inputs.now }
    ensures { result
        ≡ slice_get (map (λ k. key_in_range graph.now inputs.now k n) (range_with_len 0 (length inputs.now))) i }
{
    let i = i as usize;
    if i >= inputs.len() {
        return None;
    }
    Some(key_in_range(graph, inputs, i, n as u64))
}

// The frames of the first input from `radius` before `n` to `radius` after it.
fn around_at(graph: &Graph, inputs: &[u32], radius: u32, n: u32, i: u32) -> Option<Key>
    requires nodes { All (λ j. j < length graph.now) inputs.now }
    requires some { 0 < length inputs.now }
    ensures { result ≡ slice_get
        (map (λ k. key_in_range graph.now inputs.now 0 (n + k - radius)) (range_with_len 0 (2 * radius + 1))) i }
{
    let radius = radius as u64;
    let i = i as u64;
    if i > 2 * radius {
        return None;
    }
    let number = (n as u64 + i).saturating_sub(radius);
    Some(key_in_range(graph, inputs, 0, number))
}

// The frames that a filter of the group Soft mixes.
fn soft_at(graph: &Graph, op: &SoftOp, inputs: &[u32], n: u32, i: u32) -> Option<Key>
    requires nodes { All (λ j. j < length graph.now) inputs.now }
    requires some { 0 < length inputs.now }
    ensures { result ≡ slice_get
        (map (key_among inputs.now) (soft_asked op.now (infos_among graph.now inputs.now) n)) i }
{
    match op {
        SoftOp::TemporalSoften { radius, .. } => {
            around_at(graph, inputs, radius.unsigned_abs(), n, i)
        }
        SoftOp::GeneralConvolution { .. } => first_at(graph, inputs, n, i),
    }
}

// The frames of the first input that a filter on fields asks.
#[tactic(auto, using(crate::proofs::InputLemmas::field_keys))]
fn fields_at(graph: &Graph, op: &FieldOp, inputs: &[u32], n: u32, i: u32) -> Option<Key>
    requires nodes { All (λ j. j < length graph.now) inputs.now }
    requires some { 0 < length inputs.now }
    requires few { n < 1000000 }
    ensures { result ≡ slice_get
        (map (key_among inputs.now) (field_asked op.now (infos_among graph.now inputs.now) n)) i }
{
    match field_input(op, n, i) {
        Some(number) => Some(key_in_range(graph, inputs, 0, number as u64)),
        None => None,
    }
}

// The frames that an op over these inputs asks.
fn asked_at(graph: &Graph, op: &Op, inputs: &[u32], n: u32, i: u32) -> Option<Key>
    requires nodes { All (λ j. j < length graph.now) inputs.now }
    requires shown { IsShown (act_of op.now) (infos_among graph.now inputs.now) n }
    ensures { result ≡ slice_get
        (map (key_among inputs.now) (asked (act_of op.now) (infos_among graph.now inputs.now) n)) i }
{
    match op {
        Op::Source { .. } | Op::Blank { .. } => None,
        Op::Time(op) => shown_at(graph, op, inputs, n, i),
        Op::Space(_) => first_at(graph, inputs, n, i),
        Op::Join(_) => each_at(graph, inputs, n, i),
        Op::Soft(op) => soft_at(graph, op, inputs, n, i),
        Op::Field(op) => fields_at(graph, op, inputs, n, i),
        Op::Run(_) => each_at(graph, inputs, n, i),
    }
}

/// The `i`-th of the frames that a frame of a node is made of, in the order of the definition. `None` comes exactly
/// past the last. It takes no memory.
pub fn input_at(graph: &Graph, key: Key, i: u32) -> Option<Key>
    requires key { IsKeyBelow graph.now (length graph.now) key }
    ensures { result ≡ slice_get (input_keys graph.now key) i }
{
    prove!(key.node < graph.len());
    let node = graph.node(key.node);
    asked_at(graph, &node.op, &node.inputs, key.n, i)
}
