// The frames that a frame is made of.
ghost use Rattle.std.specs.Prelude.{◌≡◌, ◌<◌, slice_get};
ghost use Rattle.clip_term.specs.Time.{field_numbers};

use clip_term::FieldOp;

/// The number in the clip of the `i`-th frame that frame `n` is made of. `None` comes exactly past the last.
pub fn field_input(op: &FieldOp, n: u32, i: u32) -> Option<u32>
    requires { n < 1000000 }
    ensures { result ≡ slice_get (field_numbers op.now n) i }
{
    match (op, i) {
        (FieldOp::SeparateFields, 0) => Some(n / 2),
        (FieldOp::Weave, 0) => Some(2 * n),
        (FieldOp::Weave, 1) => Some(2 * n + 1),
        (FieldOp::SeparateFields | FieldOp::Weave, _) => None,
        (_, 0) => Some(n),
        _ => None,
    }
}
