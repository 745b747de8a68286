// The check of any op, and the info of a term.
ghost use Rattle.std.specs.Prelude.{◌≡◌, List, length, IfOk};
ghost use Rattle.fv_plane.specs.declared.format.Info.{Info};
ghost use Rattle.fv_plane.specs.Info.{IsLawful};
ghost use Rattle.clip_term.specs.Terms.{act_of, term_of, check, info_of, IsSound, IsSoundTerm, AreLawful};
ghost use Rattle.clip_check.specs.Summaries.{TellsAll};

use crate::blank::check_blank_info;
use crate::field::field_info;
use crate::join::join_info;
use crate::run::run_info;
use crate::soft::soft_info;
use crate::space::space_info;
use crate::summary::Summary;
use crate::time::time_info;
use clip_term::{FilterFault, Op, Term};
use fv_plane::Info;

/// The info of a clip of any op over the clips of a summary, or the first refusal.
pub fn check_summary(op: &Op, summary: &Summary) -> Result<Info, FilterFault>
    ensures { (infos : List Info) → TellsAll summary.now infos → result ≡ check (act_of op.now) infos }
{
    match op {
        Op::Source { info, .. } => Ok(*info),
        Op::Blank { info, .. } => check_blank_info(*info),
        Op::Time(inner) => time_info(inner, summary),
        Op::Space(inner) => space_info(inner, summary),
        Op::Join(inner) => join_info(inner, summary),
        Op::Soft(inner) => soft_info(inner, summary),
        Op::Field(inner) => field_info(inner, summary),
        Op::Run(inner) => run_info(inner, summary),
    }
}

/// The info of a clip of any op over clips of these infos, or the first refusal.
pub fn check(op: &Op, infos: &[Info]) -> Result<Info, FilterFault>
    ensures exact { result ≡ check (act_of op.now) infos.now }
    ensures lawful { IsSound (act_of op.now) (length infos.now) → AreLawful infos.now →
        IfOk result (λ info. IsLawful info) }
{
    check_summary(op, &Summary::of(infos))
}

/// The info of a term, or its first refusal: that of the first input that has one comes before the term's own.
pub fn info(term: &Term) -> Result<Info, FilterFault>
    ensures exact { result ≡ info_of (term_of term.now) }
    ensures lawful { IsSoundTerm (term_of term.now) → IfOk result (λ info. IsLawful info) }
{
    let mut summary = Summary::new(term.inputs.len());
    for input in &term.inputs {
        match info(input) {
            Ok(told) => summary = summary.with(told),
            Err(fault) => return Err(fault),
        }
    }
    check_summary(&term.op, &summary)
}
