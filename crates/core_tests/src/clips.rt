// A clip of three frames, and a graph of its source.
ghost use Rattle.std.specs.Prelude.{◌≡◌, ◌∷◌, ℕ, List, [], IfOk};
ghost use Rattle.fv_plane.specs.Info.{IsLawful};
ghost use Rattle.clip_term.specs.Terms.{source};

use clip_graph::Graph;
use clip_term::Op;
use fv_io::{MemSource, Text, Trip};
use fv_plane::Info;
use seq_source::SeqSource;
use std::alloc::Global;
use std::sync::Arc;
use std::test::Fail;
use y4m_stream::index;

// Each frame has one sample, at 42, 49 and 56.
const CLIP: &[u8] = b"YUV4MPEG2 W1 H1 F25:1 Ip A1:1 Cmono\nFRAME\n\x00FRAME\n\x01FRAME\n\x02";

// The frames of the clip.
pub fn clip(alloc: Global, trips: &[Trip]) -> Result<SeqSource<MemSource>, Fail> {
    let bytes = Arc::new(alloc, CLIP.to_vec(alloc)?)?;
    let mut source = MemSource::new(bytes, 4_096, trips.to_vec(alloc)?);
    let index = index(alloc, &mut source)?;
    Ok(SeqSource::new(alloc, source, index))
}

pub fn over_a_source(alloc: Global, info: Info) -> Result<Graph, Fail>
    requires { IsLawful info }
    ensures { IfOk result (λ graph. (name : List ℕ) × (graph ≡ record {
      act = source name 0 info;
      inputs = [];
      info = info;
      mode = 3;
      depth = 1;
    } ∷ [])) }
{
    let mut graph = Graph::new(alloc);
    let name = Text::from_str(alloc, "clip.y4m")?;
    let number = 0;
    graph.add(Op::Source { name, number, info }, &[], info, 3)?;
    Ok(graph)
}
