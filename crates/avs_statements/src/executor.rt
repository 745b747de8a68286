// What executes the statements of a text.
use std::alloc::Global;
use std::marker::PhantomData;

/// What executes the statements of a text.
#[derive_where(Clone, Copy)]
pub(crate) struct Executor<'e, H, E> {
    pub(crate) alloc: Global,
    /// What gives the expressions of the text their values.
    pub(crate) evaluator: &'e E,
    pub(crate) of: PhantomData<H>,
}
