// Names without arguments: the number of the frame, and the statistics of its planes.
ghost use Rattle.std.specs.Prelude.{◌≡◌, option_map};
ghost use Rattle.avs_meaning.specs.Arguments as c;
ghost use Rattle.avs_runtime.specs.Read.{Reads, frame_meaning};

use crate::fault::RunFault;
use avs_tree::meaning;
use clip_term::{PlaneStat, RunExpr};

// What a name says, where it is one of these.
#[derive(Clone, Copy)]
enum FrameName {
    Number,
    Plane(u32, PlaneStat),
}

const FRAME_NAMES: [(&str, FrameName); 10] = [
    ("current_frame", FrameName::Number),
    ("YPlaneMin", FrameName::Plane(0, PlaneStat::Least)),
    ("YPlaneMax", FrameName::Plane(0, PlaneStat::Greatest)),
    ("YPlaneMedian", FrameName::Plane(0, PlaneStat::Median)),
    ("UPlaneMin", FrameName::Plane(1, PlaneStat::Least)),
    ("UPlaneMax", FrameName::Plane(1, PlaneStat::Greatest)),
    ("UPlaneMedian", FrameName::Plane(1, PlaneStat::Median)),
    ("VPlaneMin", FrameName::Plane(2, PlaneStat::Least)),
    ("VPlaneMax", FrameName::Plane(2, PlaneStat::Greatest)),
    ("VPlaneMedian", FrameName::Plane(2, PlaneStat::Median)),
];

// What a name says.
fn frame_name(name: &str) -> Option<FrameName>
    ensures { option_map frame_meaning result ≡ c.named name.now }
{
    meaning(&FRAME_NAMES, name)
}

/// The expression that a name alone is.
pub fn named(name: &str) -> Result<RunExpr, RunFault>
    ensures { Reads (c.named name.now) result }
{
    match frame_name(name) {
        Some(FrameName::Number) => Ok(RunExpr::CurrentFrame),
        Some(FrameName::Plane(plane, stat)) => Ok(RunExpr::Plane { plane, stat }),
        None => Err(RunFault::BadExpression),
    }
}
