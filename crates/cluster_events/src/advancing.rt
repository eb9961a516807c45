//! An engine's view of switches is brought to the engine's position.
ghost use Rattle.std.specs.Prelude.{OnOk};
ghost use Rattle.book_api.specs.Books.{HasEngine};
ghost use Rattle.cluster_events.specs.Machines.{AreParts};
ghost use Rattle.cluster_events.specs.Views.{IsAdvanced};

use flow_parts::Parts;
use lb_base::Memory;

/// Brings the engine's view of switches to the engine's position.
pub(crate) fn advance(parts: &mut Parts, engine: u32) -> Result<(), Memory>
    requires engine { HasEngine engine parts.old.book }
    requires parts { AreParts parts.old }
    ensures { OnOk result (IsAdvanced engine parts.old parts.new) }
{
    let view = &mut parts.switches[(engine - 1) as usize];
    view.advance(&parts.book, engine)
}
