// The frame of a term, by recursion.
ghost use Rattle.std.specs.Prelude.{◌≡◌, ◌<◌, map, Ok, IfOk, IsOk, IsOkAnd};
ghost use Rattle.fv_plane.specs.declared.format.Info.{Info};
ghost use Rattle.clip_term.specs.Terms.{term_of, clips, IsSoundTerm, info_of, infos_of, term_picture};
ghost use Rattle.clip_reference.specs.Sources.{HasSources};

use crate::Book;
use crate::asked::asked;
use crate::make::made;
use clip_check::{check, info};
use clip_term::{Op, Term};
use flt_choice::make_run;
use fv_plane::{Frame, Info};
use std::alloc::{AllocError, Global};

/// Frame `n` of a term, by the frames of its sources. An `Err` is out of memory.
pub fn reference_frame(alloc: Global, term: &Term, n: u32, book: &Book) -> Result<Frame, AllocError>
    requires sound { IsSoundTerm (term_of term.now) }
    requires inside { IsOkAnd (info_of (term_of term.now)) (λ (info : Info). n < info.frames) }
    requires sources { HasSources book.now (term_of term.now) }
    ensures { IfOk result (λ frame. frame ≡ term_picture book.now (term_of term.now) n) }
{
    if let Op::Source { number, .. } = &term.op {
        return book.frame(*number, n);
    }
    if let Op::Blank { info, colour } = &term.op {
        return Frame::blank(alloc, info.shape, *colour);
    }
    let infos = infos_of(alloc, &term.inputs)?;
    let origins = asked(alloc, &term.op, &infos, n)?;
    let mut frames = Vec::new(alloc);
    for origin in &origins {
        let input = &term.inputs[origin.input as usize];
        let frame = reference_frame(alloc, input, origin.number, book)?;
        // Called for what its contract says.
        let _ = frame.shape();
        frames.push(frame)?;
    }
    if let Op::Run(op) = &term.op {
        return make_run(alloc, op, n, &frames);
    }
    match check(&term.op, &infos) {
        Ok(info) => made(alloc, &term.op, &infos, info, n, &frames),
        Err(_) => unreachable!(),
    }
}

// The infos of some terms, none of which is refused.
fn infos_of(alloc: Global, terms: &[Term]) -> Result<Vec<Info>, AllocError>
    requires { IsOk (infos_of (clips (map term_of terms.now))) }
    ensures { IfOk result (λ infos. infos_of (clips (map term_of terms.now)) ≡ Ok infos.items) }
{
    let mut infos = Vec::new(alloc);
    for term in terms {
        match info(term) {
            Ok(told) => infos.push(told)?,
            Err(_) => unreachable!(),
        }
    }
    Ok(infos)
}
