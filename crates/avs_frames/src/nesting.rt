// How many levels of nesting are open in an expression.
ghost use Rattle.std.specs.Prelude.{◌≡◌, ◌<◌, ◌≤◌, ◌^◌};
ghost use Rattle.avs_tree.specs.Machine.{open_level, expr_level};
ghost use Rattle.avs_frames.specs.ExprViews.{opened_view, expr_state_view};

use crate::state::{ExprState, Open};

/// How many levels of nesting all these open.
pub fn open_level(opened: &[Open]) -> usize
    ensures level { result ≡ open_level (opened_view opened.now) }
    ensures few { result < 2 ^ 63 }
{
    let mut levels = 0;
    for item in opened {
        levels += item.opens();
    }
    levels
}

impl ExprState {
    /// The parenthesis of arguments, where it was read last.
    pub fn level(&self) -> usize
        ensures level { result ≡ expr_level (expr_state_view self.now) }
        ensures few { result ≤ 1 }
    {
        match self {
            ExprState::ArgsOpened(_) => 1,
            _ => 0,
        }
    }
}
