//! What a record says to switches and trims.
ghost use Rattle.std.specs.Prelude.{◌≡◌};
ghost use Rattle.hm_switch.specs.Marks.{mark_of};

use boki_types::Body;
use lb_base::{Mode, Path};

/// What a record says to the modes, to the floor, and to which invocations are open.
#[derive(Clone, Copy)]
pub(crate) enum Mark {
    /// An invocation begins.
    Init(Path),
    /// An invocation ends.
    Finish(Path),
    /// A switch to a mode begins.
    SwitchBegin(Mode),
    /// The pending switch ends.
    SwitchEnd,
    /// A trim up to a bound.
    Trim(u64),
    /// Nothing.
    Other,
}

/// What a body says.
pub(crate) fn mark_of(body: &Body) -> Mark
    ensures { result ≡ mark_of body.now }
{
    match body {
        Body::Init { path } => Mark::Init(*path),
        Body::Finish { path, .. } => Mark::Finish(*path),
        Body::SwitchBegin { target } => Mark::SwitchBegin(*target),
        Body::SwitchEnd => Mark::SwitchEnd,
        Body::Trim { w } => Mark::Trim(*w),
        _ => Mark::Other,
    }
}
