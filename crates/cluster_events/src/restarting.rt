//! An engine loses what it had in memory.
ghost use Rattle.boki_types.specs.declared.event.Event.TheVariants as event;
ghost use Rattle.cluster_events.specs.Machines.{CanDoAny};
ghost use Rattle.cluster_events.specs.Restarts.{RestartsParts};

use flow_parts::Parts;

/// The engine loses its view of the book, its auxiliary data and its caches. What becomes of its attempts is the caller's.
pub fn restart(parts: &mut Parts, engine: u32)
    requires { CanDoAny (event.Restart engine) parts.old }
    ensures { RestartsParts engine parts.old parts.new }
{
    parts.book.restart(engine);
    let index = (engine - 1) as usize;
    parts.queues[index].clear();
    parts.txns[index].clear();
    parts.switches[index].clear();
}
