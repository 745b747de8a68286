// The checks of the filters that choose a clip for each frame.
ghost use Rattle.std.specs.Prelude.{◌≡◌, List, length, IfOk};
ghost use Rattle.fv_plane.specs.declared.format.Info.{Info};
ghost use Rattle.fv_plane.specs.Info.{IsLawful};
ghost use Rattle.clip_term.specs.Choice as c;
ghost use Rattle.clip_term.specs.Terms.{choice, IsSound, AreLawful};
ghost use Rattle.clip_check.specs.Summaries.{TellsAll};

use crate::limits::{limits, rate_of, sides_of};
use crate::shared::{disagreement, same_format, same_size};
use crate::summary::Summary;
use clip_term::{FilterFault, RunOp};
use fv_plane::Info;

/// The check of a choice over the summary of its clips.
pub fn run_info(op: &RunOp, summary: &Summary) -> Result<Info, FilterFault>
    ensures { (infos : List Info) → TellsAll summary.now infos → result ≡ c.check_run (c.run_act op.now) infos }
{
    let (base, fault) = match op {
        RunOp::Select { .. } => (
            summary.first,
            disagreement(summary.same_formats, summary.same_sizes),
        ),
        RunOp::Filter { .. } => {
            let a = summary.second;
            let b = summary.third.shape;
            let fault = disagreement(same_format(b, a.shape), same_size(b, a.shape));
            (a, fault)
        }
    };
    match fault {
        Some(fault) => Err(fault),
        None => limits(
            base,
            base.frames as u128,
            rate_of(base),
            sides_of(base.shape),
        ),
    }
}

/// The info of a choice over clips of these infos, or the first refusal.
pub fn check_choice(op: &RunOp, infos: &[Info]) -> Result<Info, FilterFault>
    ensures exact { result ≡ c.check_run (c.run_act op.now) infos.now }
    ensures lawful { IsSound (choice (c.run_act op.now)) (length infos.now) → AreLawful infos.now →
        IfOk result (λ info. IsLawful info) }
{
    run_info(op, &Summary::of(infos))
}
