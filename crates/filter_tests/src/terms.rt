// Terms over the clips of a book.
ghost use Rattle.std.specs.Prelude.{[], slice_index_or, IfOk};
ghost use Rattle.fv_plane.specs.Picture.{IsClip};
ghost use Rattle.clip_term.specs.Terms.{act_of, term_of, IsSound, IsSoundTerm};
ghost use Rattle.clip_reference.specs.Ready.{IsFilter};
ghost use Rattle.clip_reference.specs.Sources.{HasSources};

use crate::ops::{pair_op, soft_op, space_op, time_op};
use clip_reference::Book;
use clip_term::{Op, Term};
use fv_io::Text;
use fv_plane::Info;
use std::alloc::{AllocError, Global};
use std::test::Fail;

// A source of the book.
fn source(alloc: Global, book: &Book, number: u32, info: Info) -> Result<Term, AllocError>
    requires clip { IsClip (record { info = info; pictures = slice_index_or book.now number [] }) }
    ensures sound { IfOk result (λ term. IsSoundTerm (term_of term)) }
    ensures sources { IfOk result (λ term. HasSources book.now (term_of term)) }
{
    let name = Text::from_str(alloc, "clip.y4m")?;
    let op = Op::Source { name, number, info };
    let inputs = Vec::new(alloc);
    Ok(Term { op, inputs })
}

// A filter over one clip.
fn one(alloc: Global, book: &Book, op: Op, input: Term) -> Result<Term, AllocError>
    requires filter { IsFilter (act_of op) }
    requires op { IsSound (act_of op) 1 }
    requires sound { IsSoundTerm (term_of input) }
    requires sources { HasSources book.now (term_of input) }
    ensures sound { IfOk result (λ term. IsSoundTerm (term_of term)) }
    ensures sources { IfOk result (λ term. HasSources book.now (term_of term)) }
{
    let inputs = vec![in alloc; input]?;
    Ok(Term { op, inputs })
}

// A filter over two clips.
fn two(alloc: Global, book: &Book, op: Op, first: Term, second: Term) -> Result<Term, AllocError>
    requires filter { IsFilter (act_of op) }
    requires op { IsSound (act_of op) 2 }
    requires sound { IsSoundTerm (term_of first) × IsSoundTerm (term_of second) }
    requires sources { HasSources book.now (term_of first) × HasSources book.now (term_of second) }
    ensures sound { IfOk result (λ term. IsSoundTerm (term_of term)) }
    ensures sources { IfOk result (λ term. HasSources book.now (term_of term)) }
{
    let inputs = vec![in alloc; first, second]?;
    Ok(Term { op, inputs })
}

// The ops of a row, one over the other.
pub fn term_of_row(alloc: Global, book: &Book, info: Info, row: u32) -> Result<Term, Fail>
    requires first { IsClip (record { info = info; pictures = slice_index_or book.now 0 [] }) }
    requires second { IsClip (record { info = info; pictures = slice_index_or book.now 1 [] }) }
    ensures sound { IfOk result (λ term. IsSoundTerm (term_of term)) }
    ensures sources { IfOk result (λ term. HasSources book.now (term_of term)) }
{
    let first = source(alloc, book, 0, info)?;
    let second = source(alloc, book, 1, info)?;
    let timed = one(alloc, book, time_op(row), first)?;
    let joined = two(alloc, book, pair_op(row), timed, second)?;
    let shaped = one(alloc, book, space_op(row), joined)?;
    let term = one(alloc, book, soft_op(alloc, row)?, shaped)?;
    Ok(term)
}
