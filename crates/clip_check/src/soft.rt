// The checks of the group Soft.
ghost use Rattle.std.specs.Prelude.{◌≡◌, List, length, IfOk};
ghost use Rattle.fv_plane.specs.declared.format.Info.{Info};
ghost use Rattle.fv_plane.specs.Info.{IsLawful};
ghost use Rattle.fv_plane.specs.Refusals.{first_fault};
ghost use Rattle.clip_term.specs.Soft.{soft_refusals, check_soft};
ghost use Rattle.clip_term.specs.Terms.{soft, IsSound, AreLawful};
ghost use Rattle.clip_check.specs.Summaries.{TellsAll};

use crate::limits::{limits, rate_of, sides_of};
use crate::shared::{bad_range, beyond};
use crate::summary::Summary;
use clip_term::{FilterFault, SoftOp, is_bias};
use fv_plane::Info;

fn soft_fault(op: &SoftOp) -> Option<FilterFault>
    ensures { result ≡ first_fault (soft_refusals op.now) }
{
    match op {
        SoftOp::TemporalSoften {
            radius,
            luma,
            chroma,
        } => bad_range(beyond(*radius, 7) || beyond(*luma, 255) || beyond(*chroma, 255)),
        SoftOp::GeneralConvolution { bias, .. } => bad_range(!is_bias(*bias)),
    }
}

/// The check of an op of the group Soft over the summary of its clips.
pub fn soft_info(op: &SoftOp, summary: &Summary) -> Result<Info, FilterFault>
    ensures { (infos : List Info) → TellsAll summary.now infos → result ≡ check_soft op.now infos }
{
    let c = summary.first;
    match soft_fault(op) {
        Some(fault) => Err(fault),
        None => limits(c, c.frames as u128, rate_of(c), sides_of(c.shape)),
    }
}

/// The info of a clip of the group Soft over clips of these infos, or the first refusal.
pub fn check_soft(op: &SoftOp, infos: &[Info]) -> Result<Info, FilterFault>
    ensures exact { result ≡ check_soft op.now infos.now }
    ensures lawful { IsSound (soft op.now) (length infos.now) → AreLawful infos.now →
        IfOk result (λ info. IsLawful info) }
{
    soft_info(op, &Summary::of(infos))
}
