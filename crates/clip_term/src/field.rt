// The filters on fields.
use crate::Filter;

/// What becomes of the two fields of a frame.
#[derive(Clone, Copy, Debug, PartialEq, Eq)]
pub enum FieldOp {
    SeparateFields,
    Weave,
    SwapFields,
    AssumeTFF,
    AssumeBFF,
    ComplementParity,
}

impl FieldOp {
    ghost use Rattle.std.specs.Prelude.{◌≡◌};
    ghost use Rattle.clip_term.specs.Time.{field_filter};

    /// The filter that it is.
    pub(crate) fn filter(&self) -> Filter
        ensures { result ≡ field_filter self.now }
    {
        match self {
            FieldOp::SeparateFields => Filter::SeparateFields,
            FieldOp::Weave => Filter::Weave,
            FieldOp::SwapFields => Filter::SwapFields,
            FieldOp::AssumeTFF => Filter::AssumeTFF,
            FieldOp::AssumeBFF => Filter::AssumeBFF,
            FieldOp::ComplementParity => Filter::ComplementParity,
        }
    }
}
