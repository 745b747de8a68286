// What gives the expressions of a text their values.
use std::alloc::Global;
use std::marker::PhantomData;

/// What gives the expressions of a text their values.
#[derive_where(Clone, Copy)]
pub(crate) struct Evaluation<'c, H, C> {
    pub(crate) alloc: Global,
    /// What makes the calls of the text.
    pub(crate) calls: &'c C,
    pub(crate) of: PhantomData<H>,
}
