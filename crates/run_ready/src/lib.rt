//! Each window of a journal can be rendered: it is one of which the laws on waiting speak.
#![tactic(auto)]

ghost use Rattle.run_ready.specs.Ready.{WindowsCanRender};

/// The window that follows finished windows of a journal has all that workers need to go on: the instances that the modes ask
/// for, and a cache with room for a frame, which has no frame twice.
pub fn windows_can_render()
    ensures { WindowsCanRender }
{}
