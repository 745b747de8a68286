// The check of a clip of one colour.
ghost use Rattle.std.specs.Prelude.{◌≡◌, IfOk, true};
ghost use Rattle.fv_plane.specs.Format.{has_depth};
ghost use Rattle.fv_plane.specs.Info.{IsLawful, IsPar};
ghost use Rattle.fv_plane.specs.Refusals.{first_fault};
ghost use Rattle.clip_term.specs.Blank.{has_zero, plain_refusals, check_plain};

use crate::limits::{limits, rate_of, sides_of};
use crate::shared::is_whole;
use clip_term::FilterFault;
use fv_plane::Info;

fn has_zero(info: Info) -> bool
    ensures { result ≡ has_zero info }
{
    info.shape.width == 0 || info.shape.height == 0 || info.num == 0 || info.den == 0
}

fn plain_fault(info: Info) -> Option<FilterFault>
    ensures { result ≡ first_fault (plain_refusals info) }
{
    if has_zero(info) {
        return Some(FilterFault::BadRange);
    }
    if is_whole(
        info.shape,
        info.shape.width as u64,
        info.shape.height as u64,
    ) {
        None
    } else {
        Some(FilterFault::NotWholeChroma)
    }
}

/// The info of a clip of one colour, in lowest terms, or the first refusal.
pub fn check_blank_info(info: Info) -> Result<Info, FilterFault>
    ensures exact { result ≡ check_plain info }
    ensures lawful { IsPar info.par → has_depth info.shape.kind info.shape.bits ≡ true
        → IfOk result (λ made. IsLawful made) }
{
    match plain_fault(info) {
        Some(fault) => Err(fault),
        None => limits(
            info,
            info.frames as u128,
            rate_of(info),
            sides_of(info.shape),
        ),
    }
}
